//! The desk: one call that does all that the program does, from the words, the files and the rows
//! to the one line or text that is put.
#![tactic(auto)]

mod commands;
mod commit;
mod completing;
mod exact_test;
mod independence;
mod judging;
mod laws;
mod limits;
mod lines;
mod model_keys;
mod options;
mod parts;
mod plans;
mod reading;
mod reasons;
mod records;
mod refusals;
mod reply;
mod requests;
mod start;
mod status;
mod texts;
mod top;
mod words;
mod work;

pub use exact_test::{Figures, NumbersFault, numbers};
pub use laws::{
    calls_are_replayed, repeats_alike, repeats_are_unchanged, sound_is_not_refused,
    steps_keep_soundness,
};
pub use limits::{FiberLimit, Limit, Looks};
pub use mb_registry::{Body, Kind, Text};
pub use parts::Part;
pub use plans::{Change, Plan, Stop};
pub use refusals::Refusal;
pub use requests::{
    AnalyseWords, BasisWords, ImportWords, ModelWords, MovesWords, ReachWords, Request,
};
pub use status::Status;
pub use texts::{NameWord, Word};
pub use top::desk;
pub use words::read_words;
