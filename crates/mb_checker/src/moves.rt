//! The lines of moves.

ghost use Rattle.std.specs.Prelude.{◌≡◌, ◌<◌, ◌≤◌, ◌+◌, ◌^◌, OnOk, length};
ghost use Rattle.mb_certificate.specs.FirstFault.{first_from, move_fault, move_lines};
ghost use Rattle.mb_certificate.specs.Valid.{AreMoves};
ghost use Rattle.mb_checker.specs.Finds.{Finds};

use crate::stop::Stop;
use mb_certificate::{Certificate, Fault, Reason};
use mb_tables::Move;

/// What is wrong with a move.
fn move_fault(certificate: &Certificate, z: &Move) -> Option<Reason>
    requires { length z.now ≡ length certificate.now.matrix.columns }
    ensures { result ≡ move_fault certificate.now.matrix z.now }
{
    if certificate.matrix().is_move(z) {
        None
    } else {
        Some(Reason::MoveMargins)
    }
}

/// Stops at the first wrong move. The first of them stands in this line.
pub fn check_moves(certificate: &Certificate, line: u64) -> Result<(), Stop>
    requires { line ≤ 2 ^ 60 }
    ensures finds { Finds result (first_from line (move_lines certificate.now)) }
    ensures valid { OnOk result (AreMoves certificate.now.matrix certificate.now.moves) }
{
    for (k, z) in certificate.moves().as_slice().iter().enumerate() {
        if let Some(reason) = move_fault(certificate, z) {
            let line = line + k as u64;
            return Err(Stop::Wrong(Fault { line, reason }));
        }
    }
    Ok(())
}
