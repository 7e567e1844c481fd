//! The laws of groups, each the contract of a function that does nothing.

ghost use Rattle.mb_matrix.specs.MeasureLaws.{GroupsPartTheCells};

/// Law: the groups of a scale of rows part the cells: each cell's group is one of the named rows,
/// and of these rows exactly this one has a 1 there.
pub fn groups_part_the_cells()
    ensures { GroupsPartTheCells }
{}
