//! Log-linear models of datasets: the five kinds as model files name them, each a design matrix
//! with a scale and a base measure, and their record text.
#![tactic(auto)]

mod building;
mod generator;
mod hardy_weinberg;
mod hierarchical;
mod kind_fault;
mod kind_laws;
mod laws;
mod margins;
mod matrix_file;
mod model;
mod model_text;
mod names;
mod rasch;
mod reading;
mod record;
mod record_head;
mod record_measure;
mod record_rows;
mod record_written;

pub use kind_fault::{KindFault, ModelKey};
pub use kind_laws::{rasch_is_hierarchical, read_model_is_sound};
pub use laws::{read_record_is_written, written_record_is_read};
pub use mb_text::{RecordFault, is_name};
pub use model::Model;
pub use reading::read_model;
pub use record::read_model_record;
pub use record_written::write_model;
