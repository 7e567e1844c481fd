//! Sessions at the desk, told as steps, and the texts that they share: a library of the tests of
//! commands.
#![tactic(auto)]

pub mod records;
mod sessions;

pub use sessions::{
    Pieces, Step, call, first_wrong, first_wrong_of, has, holds, is_right, rows, whole,
};
