//! The traces of normal forms.

ghost use Rattle.std.specs.Prelude.{◌<◌, ◌^◌, IfOk, length};
ghost use Rattle.mb_certificate.specs.Certificate.{AreNumbers};
ghost use Rattle.mb_completion.specs.Made.{IsNormalTrace};
ghost use Rattle.mb_order.specs.Weight.{IsLight, Suits};

use mb_order::Monomial;
use mb_rules::Rules;
use mb_tables::OutOfMemory;
use std::alloc::Global;

/// The numbers of the rules that lead a monomial to its normal form, in order.
pub fn trace_of(alloc: Global, rules: &Rules, m: &Monomial) -> Result<Vec<u32>, OutOfMemory>
    requires shape { Suits rules.now.matrix m.now }
    requires light { IsLight rules.now.matrix m.now.list }
    ensures normal { IfOk result (λ t. IsNormalTrace rules.now.rules t.items m.now.list) }
    ensures numbers { IfOk result (λ t. AreNumbers t.items) }
    ensures short { IfOk result (λ t. length t.items < 2 ^ 64) }
{
    let (_form, trace) = rules.normal(alloc, m)?;
    let steps = trace.steps();
    let _long = steps.len();
    Ok(Vec::from_slice(alloc, steps)?)
}
