//! The laws of rewriting, each the contract of a function that does nothing.

ghost use Rattle.mb_rules.specs.Laws.{
  CriticalPairs,
  Elimination,
  Joining,
  Newman,
  NormalForms,
  Paths,
};

/// Law (critical pairs): if each pair of overlapping rules has its two sides joined, rewriting is
/// locally confluent.
pub fn critical_pairs()
    ensures { CriticalPairs }
{}

/// Law: where any two steps from one monomial lead to one monomial, so do any two monomials to
/// which one leads.
pub fn newman()
    ensures { Newman }
{}

/// Law (elimination): tables of equal margins have monomials with a common reduct, reached without
/// symbols of margins.
pub fn elimination()
    ensures { Elimination }
{}

/// Law: where the moves join the two tables of each margin-free rule, they join any two tables of
/// equal margins.
pub fn paths()
    ensures { Paths }
{}

/// Law: the same for the two orders, with no premise on the order.
pub fn joining()
    ensures { Joining }
{}

/// Law: each monomial has one normal form, by one trace.
pub fn normal_forms()
    ensures { NormalForms }
{}
