//! The laws of reached tables, each the contract of a function that does nothing.

ghost use Rattle.mb_rings.specs.Laws.{
  EachIsReachedOnce,
  LeastPathIsOne,
  MarkovBasisReachesFiber,
  ReachedIsJoined,
  RingsAreByDistance,
  RingsAscend,
};

/// Law: by moves of the matrix, the tables in the rings of a start are exactly those that the
/// moves join to it.
pub fn reached_is_joined()
    ensures { ReachedIsJoined }
{}

/// Law: no table is reached twice, in one ring or in two.
pub fn each_is_reached_once()
    ensures { EachIsReachedOnce }
{}

/// Law: each ring ascends.
pub fn rings_ascend()
    ensures { RingsAscend }
{}

/// Law: by moves of the matrix, ring k has exactly the tables at distance k from the start in the
/// fiber graph.
pub fn rings_are_by_distance()
    ensures { RingsAreByDistance }
{}

/// Law: a Markov basis reaches exactly the fiber of the start.
pub fn markov_basis_reaches_fiber()
    ensures { MarkovBasisReachesFiber }
{}

/// Law: between two tables there is one least path at most.
pub fn least_path_is_one()
    ensures { LeastPathIsOne }
{}
