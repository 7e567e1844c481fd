//! The completion of a model.
ghost use Rattle.std.specs.Prelude.{◌≡◌, ◌≤◌, IfOk, false};
ghost use Rattle.mb_certificate.specs.Valid.{IsValid};
ghost use Rattle.mb_completion.specs.Limits.{most_looks};
ghost use Rattle.mb_desk.specs.Completing.{complete_stop, completed};
ghost use Rattle.mb_desk.specs.Decision.{Follows, blames};

use crate::commands::check::judge;
use crate::plans::Stop;
use crate::refusals::Refusal;
use mb_certificate::Certificate;
use mb_completion::{CompleteFault, complete, make};
use mb_matrix::Matrix;
use mb_order::Order;
use std::alloc::Global;

/// What a completion gives.
#[derive(Drop)]
pub struct Completion {
    /// The certificate of its reduced basis.
    pub certificate: Certificate,
    /// How many critical pairs the run looked at.
    pub looks: u32,
}

/// Why the work stops for the fault of a completion.
pub fn complete_stop(fault: CompleteFault) -> Stop
    ensures { result ≡ complete_stop fault }
{
    match fault {
        CompleteFault::Unfinished { looked, left } => {
            Stop::Refused(Refusal::Unfinished { looked, left })
        }
        CompleteFault::Exponent { pair } => Stop::Refused(Refusal::Exponent { pair }),
        CompleteFault::OutOfMemory => Stop::Memory,
    }
}

/// The certificate of a design matrix, completed with at most so many looks, and then checked.
pub fn certify(alloc: Global, matrix: &Matrix, order: Order, pairs: u32) -> Result<Completion, Stop>
    requires { pairs ≤ most_looks }
    ensures completed { Follows result (completed matrix.now order pairs) }
    ensures own { blames result ≡ false }
{
    let _rows = matrix.rows();
    let completed = match complete(alloc, matrix, order, pairs) {
        Ok(completed) => completed,
        Err(fault) => return Err(complete_stop(fault)),
    };
    let looks = completed.looks;
    let certificate = match make(alloc, matrix, &completed) {
        Ok(certificate) => certificate,
        Err(_) => return Err(Stop::Memory),
    };
    let _parts = certificate.matrix();
    match judge(alloc, certificate) {
        Ok(certificate) => Ok(Completion { certificate, looks }),
        Err(stop) => Err(stop),
    }
}
