//! The checker of certificates: each line is judged by replaying what it lists. It stands on no
//! code that makes certificates.
#![tactic(auto)]

mod checking;
mod joins;
pub mod laws;
mod moves;
mod paths;
mod rules;
mod starts;
mod stop;
mod traces;
mod verdict;
mod walking;

pub use checking::check;
pub use mb_certificate::Reason;
pub use paths::is_free;
pub use verdict::Verdict;
pub use walking::table_of;
