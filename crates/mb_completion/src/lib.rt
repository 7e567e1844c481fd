//! Completion of the rules of a design matrix: the run over critical pairs, the reduced
//! basis, and the certificate that is made of it.
#![tactic(auto)]

mod completion;
mod fault;
mod joins;
pub mod laws;
mod making;
mod moves;
mod reduction;
mod run;
mod start;
mod starts;
mod traces;

pub use completion::{Completed, complete};
pub use fault::CompleteFault;
pub use making::make;
