//! The laws of weights and of their sums, each the contract of a function that does nothing.

ghost use Rattle.mb_weights.specs.Laws.{
  BinomialsAgree,
  MultinomialIsExact,
  OwnGroupHasNoPart,
  SameTablesOnce,
  SumsIgnoreOrder,
  WeightByFactorials,
  WeightsArePositive,
};

/// Law: the division in the multinomial coefficient leaves no remainder.
pub fn multinomial_is_exact()
    ensures { MultinomialIsExact }
{}

/// Law: multinomial coefficients are products of binomial ones.
pub fn binomials_agree()
    ensures { BinomialsAgree }
{}

/// Law: no table's weight is 0.
pub fn weights_are_positive()
    ensures { WeightsArePositive }
{}

/// Law: a cell in a group of its own whose base number is 1 has no part in the weight.
pub fn own_group_has_no_part()
    ensures { OwnGroupHasNoPart }
{}

/// Law: among tables whose groups have the same totals the weight is proportional to the product
/// of the base numbers' powers over the counts' factorials.
pub fn weight_by_factorials()
    ensures { WeightByFactorials }
{}

/// Law: sums of weights don't depend on the order in which the tables are listed.
pub fn sums_ignore_order()
    ensures { SumsIgnoreOrder }
{}

/// Law: two lists with the same tables, each once, differ in the order alone.
pub fn same_tables_once()
    ensures { SameTablesOnce }
{}
