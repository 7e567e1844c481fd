//! The lines of a text and the items of a line.

ghost use Rattle.std.specs.Prelude.{◌≡◌, ◌==◌, ◌∷◌, ◌<◌, ◌≤◌, [], IfNone, IfSome, List, MatchOption, length, ℕ};
ghost use Rattle.std.specs.List.{position_or_len};
ghost use Rattle.mb_text.specs.Lines.{items, lines, pieces};

/// How many bytes stand before the first one of this value.
fn place_of(text: &[u8], byte: u8) -> usize
    ensures count { result ≡ position_or_len (λ b. b == byte) text.now }
    ensures within { result ≤ length text.now }
{
    for (place, b) in text.iter().enumerate() {
        if *b == byte {
            return place;
        }
    }
    text.len()
}

/// The text before the first byte of this value, and the text after it; none where there is no
/// such byte.
pub fn next_piece(text: &[u8], byte: u8) -> Option<(&[u8], &[u8])>
    ensures cut { MatchOption result (pieces byte text.now ≡ text.now ∷ [])
        (λ p. pieces byte text.now ≡ p.0.now ∷ pieces byte p.1.now) }
    ensures shorter { IfSome result (λ p. length p.1.now < length text.now) }
{
    let place = place_of(text, byte);
    if place == text.len() {
        return None;
    }
    let (piece, rest) = text.split_at(place);
    let (_, rest) = rest.split_at(1);
    Some((piece, rest))
}

/// The first line of a text, without its line feed, and the text after it; none where the text
/// has no line feed.
pub fn next_line(text: &[u8]) -> Option<(&[u8], &[u8])>
    ensures cut { MatchOption result (lines text.now ≡ text.now ∷ [])
        (λ p. lines text.now ≡ p.0.now ∷ lines p.1.now) }
    ensures shorter { IfSome result (λ p. length p.1.now < length text.now) }
{
    next_piece(text, b'\n')
}

/// The first item of a line and the line after the space behind it; none where the line has no
/// space and so is one item.
pub fn next_item(line: &[u8]) -> Option<(&[u8], &[u8])>
    ensures cut { MatchOption result (items line.now ≡ line.now ∷ [])
        (λ p. items line.now ≡ p.0.now ∷ items p.1.now) }
    ensures shorter { IfSome result (λ p. length p.1.now < length line.now) }
{
    next_piece(line, b' ')
}

/// What follows the word that a line begins with, and one space; none where the line doesn't
/// begin so.
pub fn after_word<'a>(line: &'a [u8], word: &[u8]) -> Option<&'a [u8]>
    ensures some { IfSome result (λ rest. items line.now ≡ word.now ∷ items rest.now) }
    ensures none { IfNone result ((item : List ℕ) (others : List (List ℕ)) →
        items line.now ≡ word.now ∷ item ∷ others → ⊥) }
{
    match next_item(line) {
        None => None,
        Some((item, rest)) => { if item == word { Some(rest) } else { None } }
    }
}
