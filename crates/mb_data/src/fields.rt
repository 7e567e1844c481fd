//! Fields of a record as text.

ghost use Rattle.std.specs.List.{starts_with};
ghost use Rattle.std.specs.Option.{option_map};
ghost use Rattle.std.specs.Prelude.{◌≡◌, None, Some, if◌then◌else◌};
ghost use Rattle.std.specs.Str.{is_utf8};
ghost use Rattle.mb_data.specs.HeaderText.{is_header_field};

use std::str;

/// The field as text, where it is UTF-8.
pub(crate) fn text_field(field: &[u8]) -> Option<&str>
    ensures { option_map (λ text. text.now) result
        ≡ (if is_utf8 field.now then Some field.now else None) }
{
    match str::from_utf8(field) {
        Ok(text) => Some(text),
        Err(_) => None,
    }
}

/// Whether the field is UTF-8.
pub(crate) fn is_text(field: &[u8]) -> bool
    ensures { result ≡ is_utf8 field.now }
{
    match text_field(field) {
        Some(_) => true,
        None => false,
    }
}

/// The field as text, where it is UTF-8 that doesn't begin with a byte order mark.
pub(crate) fn header_field(field: &[u8]) -> Option<&str>
    ensures { option_map (λ text. text.now) result
        ≡ (if is_header_field field.now then Some field.now else None) }
{
    if field.starts_with(&[0xEF, 0xBB, 0xBF]) {
        return None;
    }
    text_field(field)
}
