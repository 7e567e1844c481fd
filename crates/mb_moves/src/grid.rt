//! A matrix as a text has it.

ghost use Rattle.std.specs.Prelude.{◌≡◌, ◌<◌, ◌*◌, Some, length, slice_get};
ghost use Rattle.mb_tables.specs.Limits.{most_cells};
ghost use Rattle.mb_tables.specs.Rows.{AreRows, array_of};
ghost use Rattle.mb_moves.specs.Grid.{IsGrid};

use std::marker::Model;

/// A matrix of 1 to 64 rows and 1 to 64 columns, seen as its array. The entry of row i and column
/// j, both from 0, is `entries[i * cols + j]`; none is -2,147,483,648.
#[derive(Debug, Drop)]
pub struct Grid {
    /// The number of rows: margins.
    pub rows: u32,
    /// The number of columns: cells of a table.
    pub cols: u32,
    /// The entries, row by row.
    pub entries: Vec<i32>,
}

impl Model for Grid {
    ghost use Rattle.mb_tables.specs.Rows.{Rows, array_of};
    ghost use Rattle.mb_moves.specs.Grid.{IsGrid};

    ghost Value = { Rows };

    ghost view = { λ g. array_of g.cols g.rows g.entries.items };

    ghost invariant = { λ g. IsGrid g.rows g.cols g.entries.items };
}

impl Grid {
    /// The matrix of these entries, row by row.
    pub fn from_entries(rows: u32, cols: u32, entries: Vec<i32>) -> Grid
        requires { IsGrid rows cols entries.items }
        ensures { result ≡ array_of cols rows entries.items }
    {
        Grid {
            rows,
            cols,
            entries,
        }
    }

    /// A row, from 0.
    pub fn row(&self, row: u32) -> &[i32]
        requires { row < length self.now.rows }
        ensures entries { slice_get self.now.rows row ≡ Some result.now }
        ensures width { length result.now ≡ self.now.width }
    {
        let start = row as usize * self.cols as usize;
        let (_, rest) = self.entries.as_slice().split_at(start);
        let (entries, _) = rest.split_at(self.cols as usize);
        entries
    }

    /// The number of rows, 1 to 64.
    pub fn row_count(&self) -> u32
        ensures rows { result ≡ length self.now.rows }
        ensures sound { AreRows 1 most_cells self.now }
    {
        self.rows
    }

    /// The number of columns, 1 to 64.
    pub fn width(&self) -> u32
        ensures width { result ≡ self.now.width }
        ensures sound { AreRows 1 most_cells self.now }
    {
        self.cols
    }

    /// All entries, row by row.
    pub fn as_slice(&self) -> &[i32]
        ensures array { self.now ≡ array_of self.now.width (length self.now.rows) result.now }
        ensures full { length result.now ≡ length self.now.rows * self.now.width }
    {
        self.entries.as_slice()
    }
}
