//! The starts of a made certificate.

ghost use Rattle.std.specs.Prelude.{◌<◌, All, IfOk, length};
ghost use Rattle.mb_certificate.specs.Certificate.{IsStart};
ghost use Rattle.mb_completion.specs.Made.{AreNormalStarts, IsNormalStart};

use crate::start::birth;
use crate::traces::trace_of;
use mb_certificate::Start;
use mb_rules::Rules;
use mb_tables::OutOfMemory;
use std::alloc::Global;

/// The start at a cell: how the monomial of its column and its symbol come to their normal forms.
fn start(alloc: Global, rules: &Rules, cell: u32) -> Result<Start, OutOfMemory>
    requires { cell < length rules.now.matrix.columns }
    ensures normal { IfOk result (IsNormalStart rules.now.matrix rules.now.rules cell) }
    ensures sound { IfOk result IsStart }
{
    let _rules = rules.len();
    let first = birth(alloc, rules.matrix(), cell)?;
    Ok(Start {
        margin_steps: trace_of(alloc, rules, &first.left)?,
        cell_steps: trace_of(alloc, rules, &first.right)?,
    })
}

/// The starts of all cells, in order.
pub fn starts_of(alloc: Global, rules: &Rules) -> Result<Vec<Start>, OutOfMemory>
    ensures normal { IfOk result
        (λ starts. AreNormalStarts rules.now.matrix rules.now.rules starts.items) }
    ensures sound { IfOk result (λ starts. All IsStart starts.items) }
{
    let mut starts = Vec::new(alloc);
    for cell in 0..rules.matrix().cols() {
        starts.push(start(alloc, rules, cell)?)?;
    }
    Ok(starts)
}
