//! Text: tokens, numbers, lines of numbers, and the one writer of numbers.
#![tactic(auto)]

mod fault;
mod laws;
mod line_forms;
mod names;
mod numerals;
mod pieces;
mod plain;
mod plain_lines;
mod record_fault;
mod record_lines;
mod tokens;
mod writing;

pub use fault::LineFault;
pub use laws::{line_is_its_tokens, one_spelling, pieces_are_the_text, written_number_is_read};
pub use line_forms::{item_after, numbers_after, numbers_of, rest_after};
pub use names::{is_name, read_name};
pub use numerals::{capped_natural, capped_number};
pub use pieces::{after_word, next_item, next_line, next_piece};
pub use plain::{is_numeral, number_within, plain_number, plain_signed};
pub use plain_lines::{PlainNumber, read_numbers};
pub use record_fault::RecordFault;
pub use record_lines::{read_end, read_exactly, take_line};
pub use tokens::{next_token, skip_blanks};
pub use writing::{
    is_written, push_line, push_number, push_numbers, push_spaced, push_text, push_word_item,
    push_word_line,
};
