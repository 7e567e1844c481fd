//! The tokens of a text.

ghost use Rattle.std.specs.Prelude.{◌≡◌, ◌∷◌, ◌<◌, ◌≤◌, [], false, length, MatchOption, slice_index};
ghost use Rattle.std.specs.List.{position_or_len, prefix_len};
ghost use Rattle.mb_text.specs.Tokens.{is_blank, tokens};

/// Whether a byte separates tokens.
fn is_blank(b: u8) -> bool
    ensures { result ≡ is_blank b }
{
    (9 <= b && b <= 13) || b == 32
}

/// How many blanks the text begins with.
fn leading_blanks(text: &[u8]) -> usize
    ensures count { result ≡ prefix_len is_blank text.now }
    ensures within { result ≤ length text.now }
{
    for (place, b) in text.iter().enumerate() {
        if !is_blank(*b) {
            return place;
        }
    }
    text.len()
}

/// How many bytes that are no blanks the text begins with.
fn token_len(text: &[u8]) -> usize
    ensures count { result ≡ position_or_len is_blank text.now }
    ensures within { result ≤ length text.now }
{
    for (place, b) in text.iter().enumerate() {
        if is_blank(*b) {
            return place;
        }
    }
    text.len()
}

/// The text from its first token on: empty where it has none.
pub fn skip_blanks(text: &[u8]) -> &[u8]
    ensures tokens { tokens result.now ≡ tokens text.now }
    ensures first { 0 < length result.now → is_blank (slice_index result.now 0) ≡ false }
{
    let (_, rest) = text.split_at(leading_blanks(text));
    rest
}

/// The first token, and the text after it.
pub fn next_token(text: &[u8]) -> Option<(&[u8], &[u8])>
    ensures { MatchOption result (tokens text.now ≡ [])
        (λ p. tokens text.now ≡ p.0.now ∷ tokens p.1.now) }
{
    let text = skip_blanks(text);
    if text.is_empty() {
        return None;
    }
    let (token, rest) = text.split_at(token_len(text));
    Some((token, rest))
}
