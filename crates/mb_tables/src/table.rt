//! A table of counts.

ghost use Rattle.std.specs.Prelude.{◌≡◌, ◌<◌, IfOk, List, Some, length, slice_get, ℕ};
ghost use Rattle.std.specs.Bool.{OnFalse, OnTrue};
ghost use Rattle.mb_tables.specs.Answers.{Gives};
ghost use Rattle.mb_tables.specs.Counts.{AreCounts, HasFewCells, IsTable};
ghost use Rattle.mb_tables.specs.Step.{Moved};

use crate::memory::OutOfMemory;
use crate::one_move::{MOST_CELLS, Move};
use crate::sign::Sign;
use crate::steps;
use smallvec::SmallVec;
use std::alloc::Global;
use std::cmp::Ordering;
use std::hash::{Hash, Hasher};
use std::marker::Model;

/// The most that the counts of a table from a file add up to.
pub const LARGEST_TOTAL: u32 = 1_000_000;

/// A contingency table, seen as its list of counts, one a cell: at most 64 of 32 bits.
///
/// Up to 16 counts lie in the value itself, since walks keep millions of tables.
#[derive(Drop)]
pub struct Table {
    counts: SmallVec<u32, 16>,
}

impl Model for Table {
    ghost use Rattle.std.specs.Prelude.{List, ℕ};
    ghost use Rattle.mb_tables.specs.Counts.{IsTable};

    ghost Value = { List ℕ };

    ghost view = { λ t. t.counts.items };

    ghost invariant = { λ t. IsTable t.counts.items };
}

/// Why a list of counts is no table.
#[derive(Clone, Copy, Debug, PartialEq, Eq)]
pub enum TableFault {
    /// There are more than 64 counts.
    TooManyCells,
    /// Out of memory.
    OutOfMemory,
}

impl From<OutOfMemory> for TableFault {
    ghost use Rattle.std.specs.Prelude.{◌≡◌};
    ghost use Rattle.mb_tables.specs.declared.table.TableFault.TheVariants.{OutOfMemory};

    ghost from_gives = { λ _ e. e ≡ OutOfMemory };

    fn from(_e: OutOfMemory) -> TableFault {
        TableFault::OutOfMemory
    }
}

impl Table {
    ghost use Rattle.mb_tables.specs.Faults.{table_cause, table_of};

    /// The table of these counts, one a cell. Refused are more than 64 counts.
    pub fn try_new(alloc: Global, counts: &[u32]) -> Result<Table, TableFault>
        ensures made { IfOk result (λ t. t ≡ counts.now) }
        ensures few { IfOk result (λ t. HasFewCells counts.now) }
        ensures exact { Gives table_cause (λ t. t) result (table_of counts.now) }
    {
        if counts.len() > MOST_CELLS as usize {
            return Err(TableFault::TooManyCells);
        }
        Ok(Table::from_counts(alloc, counts)?)
    }

    /// The table of these counts, which are known to be few.
    pub fn from_counts(alloc: Global, counts: &[u32]) -> Result<Table, OutOfMemory>
        requires { HasFewCells counts.now }
        ensures { IfOk result (λ t. t ≡ counts.now) }
    {
        Ok(Table {
            counts: SmallVec::from_slice(alloc, counts)?,
        })
    }

    /// The number of cells, at most 64.
    pub fn len(&self) -> u32
        ensures cells { result ≡ length self.now }
        ensures sound { IsTable self.now }
    {
        self.counts.len() as u32
    }

    /// The count of a cell. Cells count from 0.
    pub fn count(&self, cell: u32) -> u32
        requires { cell < length self.now }
        ensures { slice_get self.now cell ≡ Some result }
    {
        self.as_slice()[cell as usize]
    }

    /// All counts, cell by cell.
    pub fn as_slice(&self) -> &[u32]
        ensures counts { result.now ≡ self.now }
        ensures sound { IsTable self.now }
    {
        self.counts.as_slice()
    }

    /// An equal table.
    pub fn try_copy(&self) -> Result<Table, OutOfMemory>
        ensures { IfOk result (λ t. t ≡ self.now) }
    {
        Ok(Table {
            counts: SmallVec::from_slice(*self.counts.allocator(), self.counts.as_slice())?,
        })
    }

    /// Adds a move, or subtracts it. Where that would take a count out of the range of a `u32`, and
    /// only there, the table stays as it was and the answer is false. It takes no memory.
    pub fn apply(&mut self, z: &Move, sign: Sign) -> bool
        requires { length self.old ≡ length z.now }
        ensures moved { OnTrue result (Moved sign self.old z.now self.new) }
        ensures refused { OnFalse result
            ((v : List ℕ) → Moved sign self.old z.now v → AreCounts v → ⊥) }
        ensures kept { OnFalse result (self.new ≡ self.old) }
        ensures sound { IsTable self.old }
    {
        let (parts, lows) = z.parts();
        if !steps::can_move(self.counts.as_slice(), parts, lows, sign) {
            return false;
        }
        steps::move_counts(self.counts.as_mut_slice(), parts, sign);
        true
    }

    /// Takes a step back: it undoes what the move, added or subtracted, made of another table. It
    /// takes no memory.
    pub fn take_back(&mut self, z: &Move, sign: Sign)
        requires cells { length self.old ≡ length z.now }
        requires made { (u : List ℕ) × IsTable u × Moved sign u z.now self.old }
        ensures { Moved sign self.new z.now self.old }
    {
        let (parts, _lows) = z.parts();
        steps::move_counts(self.counts.as_mut_slice(), parts, sign.opposite());
    }
}

impl PartialEq for Table {
    ghost use Rattle.std.proofs.Common.{rules};
    ghost use Rattle.std.specs.Cmp.Lexicographic.{pointwise};
    ghost use Rattle.std.specs.Cmp.Rules.{comparing};
    ghost use Rattle.std.specs.Prelude.{◌==◌};

    ghost eq = { pointwise ◌==◌ };

    ghost laws = { Prim.search (comparing, rules) };

    fn eq(&self, other: &Table) -> bool {
        self.counts.as_slice() == other.counts.as_slice()
    }
}

impl Eq for Table {
    ghost use Rattle.std.proofs.Common.{rules};
    ghost use Rattle.std.specs.Cmp.Rules.{comparing};

    ghost laws = { Prim.search (comparing, rules) };
}

/// The lexicographic order of the lists of counts.
impl Ord for Table {
    ghost use Rattle.std.proofs.Common.{rules};
    ghost use Rattle.std.specs.Cmp.Lexicographic.{slice_cmp};
    ghost use Rattle.std.specs.Cmp.Rules.{comparing};
    ghost use Rattle.std.specs.Ordering.{nat_cmp};

    ghost cmp = { slice_cmp nat_cmp };

    ghost total = { Prim.search (comparing, rules) };

    ghost matches_partial_cmp = { Prim.search (comparing, rules) };

    ghost matches_eq = { Prim.search (comparing, rules) };

    fn cmp(&self, other: &Table) -> Ordering {
        self.counts.as_slice().cmp(other.counts.as_slice())
    }
}

impl PartialOrd for Table {
    ghost use Rattle.std.proofs.Common.{rules};
    ghost use Rattle.std.specs.Cmp.Lexicographic.{slice_cmp};
    ghost use Rattle.std.specs.Cmp.Rules.{comparing};
    ghost use Rattle.std.specs.Cmp.{partial_order_from_own_ties};
    ghost use Rattle.std.specs.Ordering.{as_partial_cmp, nat_cmp};

    ghost partial_cmp = { as_partial_cmp (slice_cmp nat_cmp) };

    ghost laws = { partial_order_from_own_ties (Prim.search (comparing, rules))
        (Prim.search (comparing, rules)) };

    fn partial_cmp(&self, other: &Table) -> Option<Ordering> {
        Some(self.cmp(other))
    }
}

/// Equal tables hash alike: the counts are hashed, cell by cell.
impl Hash for Table {
    ghost use Rattle.std.proofs.Common.{rules};
    ghost use Rattle.std.specs.Cmp.Rules.{comparing, hashing};
    ghost use Rattle.std.specs.Hash as fed;

    ghost hash_input = { fed.slice fed.u32 };

    ghost respects_eq = { Prim.search (hashing, rules) };

    fn hash<H: Hasher>(&self, state: &mut H) {
        self.counts.as_slice().hash(state);
    }
}
