//! Words, numbers and lines of them, put at the end of a text.

ghost use Rattle.std.specs.Prelude.{◌≡◌, ◌++◌, ◌∷◌, [], OnOk, map};
ghost use Rattle.std.specs.List.{flat_map, join_with_byte};
ghost use Rattle.std.specs.Str.{bytes_eq};
ghost use Rattle.mb_text.specs.Lines.{line};

use itoa::{Buffer, Integer};
use mb_tables::OutOfMemory;

/// Puts bytes at the end of a text.
pub fn push_text(out: &mut Vec<u8>, text: &[u8]) -> Result<(), OutOfMemory>
    ensures { OnOk result (out.new.items ≡ out.old.items ++ text.now) }
{
    out.extend_from_slice(text)?;
    Ok(())
}

/// Puts a number in decimal at the end of a text.
pub fn push_number<I: Integer>(out: &mut Vec<u8>, number: I) -> Result<(), OutOfMemory>
    ensures { OnOk result (out.new.items ≡ out.old.items ++ I.text number) }
{
    let mut buffer = Buffer::new();
    out.extend_from_slice(buffer.format(number).as_bytes())?;
    Ok(())
}

/// Puts numbers at the end of a text, a space before each.
pub fn push_spaced<I: Integer>(out: &mut Vec<u8>, numbers: &[I]) -> Result<(), OutOfMemory>
    ensures { OnOk result
        (out.new.items ≡ out.old.items ++ flat_map (λ n. 32 ∷ I.text n) numbers.now) }
{
    for number in numbers {
        out.push(b' ')?;
        push_number(out, *number)?;
    }
    Ok(())
}

/// Puts numbers at the end of a text, one space between each two.
pub fn push_numbers<I: Integer>(out: &mut Vec<u8>, numbers: &[I]) -> Result<(), OutOfMemory>
    ensures { OnOk result
        (out.new.items ≡ out.old.items ++ join_with_byte 32 (map I.text numbers.now)) }
{
    if let Some((first, others)) = numbers.split_first() {
        push_number(out, *first)?;
        push_spaced(out, others)?;
    }
    Ok(())
}

/// Puts a line of numbers at the end of a text.
pub fn push_line<I: Integer>(out: &mut Vec<u8>, numbers: &[I]) -> Result<(), OutOfMemory>
    ensures { OnOk result (out.new.items ≡ out.old.items ++ line (map I.text numbers.now)) }
{
    push_numbers(out, numbers)?;
    out.push(b'\n')?;
    Ok(())
}

/// Puts a line at the end of a text that begins with a word and goes on with numbers.
pub fn push_word_line<I: Integer>(
    out: &mut Vec<u8>,
    word: &[u8],
    numbers: &[I],
) -> Result<(), OutOfMemory>
    ensures { OnOk result
        (out.new.items ≡ out.old.items ++ line (word.now ∷ map I.text numbers.now)) }
{
    push_text(out, word)?;
    push_spaced(out, numbers)?;
    out.push(b'\n')?;
    Ok(())
}

/// Puts a line of a word and one item at the end of a text.
pub fn push_word_item(out: &mut Vec<u8>, word: &[u8], item: &[u8]) -> Result<(), OutOfMemory>
    ensures { OnOk result (out.new.items ≡ out.old.items ++ line (word.now ∷ item.now ∷ [])) }
{
    push_text(out, word)?;
    out.push(b' ')?;
    push_text(out, item)?;
    out.push(b'\n')?;
    Ok(())
}

/// Whether an item is the decimal form of a number.
pub fn is_written<I: Integer>(item: &[u8], number: I) -> bool
    ensures { result ≡ bytes_eq item.now (I.text number) }
{
    let mut buffer = Buffer::new();
    item == buffer.format(number).as_bytes()
}
