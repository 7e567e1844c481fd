//! The laws of orders, of weights and of steps, each the contract of a function that does nothing.

ghost use Rattle.mb_order.specs.Laws.{LightExponents, Orders, Steps, WeightByParts};

/// Law: both orders are monomial orders, and elimination orders for the margins' symbols.
pub fn orders()
    ensures { Orders }
{}

/// Law: the weight of a monomial is its margin exponents and the margins of its cell exponents.
pub fn weight_by_parts()
    ensures { WeightByParts }
{}

/// Law: where no margin weighs more than 65,535, no exponent passes that.
pub fn light_exponents()
    ensures { LightExponents }
{}

/// Law: a rule takes one monomial to another exactly where its left side divides the first and
/// the second is what it makes of it.
pub fn steps()
    ensures { Steps }
{}
