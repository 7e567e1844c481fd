//! The laws of lines and numbers, each the contract of a function that does nothing.

ghost use Rattle.mb_text.specs.Laws.{LineIsItsTokens, OneSpelling, PiecesAreTheText, WrittenNumberIsRead};

/// Law: a text is its pieces, joined, and pieces, joined, are cut again.
pub fn pieces_are_the_text()
    ensures { PiecesAreTheText }
{}

/// Law: a number has exactly one spelling, which is the written form.
pub fn one_spelling()
    ensures { OneSpelling }
{}

/// Law: the tokens of a line are its items.
pub fn line_is_its_tokens()
    ensures { LineIsItsTokens }
{}

/// Law: a written number is a token, and is read as this number.
pub fn written_number_is_read()
    ensures { WrittenNumberIsRead }
{}
