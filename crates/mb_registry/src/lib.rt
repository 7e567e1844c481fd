//! The registry: records of four kinds by name, each of which may refer to another, over a keeper
//! of bodies.
#![tactic(auto)]

mod adding;
mod bodies;
mod fault;
mod kinds;
mod laws;
mod listing;
mod looking;
mod names;
mod records;
mod registry;
mod removing;
mod texts;

pub use adding::{Added, would_add};
pub use bodies::{body_of, record_of, write_basis};
pub use fault::RegistryFault;
pub use kinds::Kind;
pub use laws::{body_is_its_record, orderly_is_not_bad, repeats_are_unchanged, steps_keep_order};
pub use listing::{Listed, record_list};
pub use looking::{analysis, basis, dataset, model};
pub use names::{Name, NameFault};
pub use records::Record;
pub use registry::Registry;
pub use removing::would_remove;
pub use texts::{Body, Text};
