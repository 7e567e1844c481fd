//! The laws of the peel, of keys and of ranks, each the contract of a function that does nothing.

ghost use Rattle.mb_matrix.specs.KeyLaws.{
  FreeCellsDetermine,
  KeysAreBounded,
  KeysAreDistinct,
  PeelIsTriangular,
  RanksAscend,
  TablesSuitKeys,
};

/// Law: the peel is triangular, each cell has one step of it, and free cells ascend.
pub fn peel_is_triangular()
    ensures { PeelIsTriangular }
{}

/// Law: tables of the same margins with the same free cells are equal.
pub fn free_cells_determine()
    ensures { FreeCellsDetermine }
{}

/// Law: a table of the fiber has a key.
pub fn tables_suit_keys()
    ensures { TablesSuitKeys }
{}

/// Law: a key is not 0, and at most the product of bound + 1; a rank is below it.
pub fn keys_are_bounded()
    ensures { KeysAreBounded }
{}

/// Law: distinct tables of one fiber have distinct keys.
pub fn keys_are_distinct()
    ensures { KeysAreDistinct }
{}

/// Law: the ranks of the tables of a fiber ascend with the tables.
pub fn ranks_ascend()
    ensures { RanksAscend }
{}
