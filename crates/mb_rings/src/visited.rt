//! The tables that a walk has met.

ghost use Rattle.std.specs.Prelude.{◌≡◌, ◌↔◌, ◌∷◌, [], IsTrue, OnErr, OnOk, length};
ghost use Rattle.std.specs.List.Sorted.{IsPermutation};
ghost use Rattle.mb_rings.specs.loops.Found.{AreDistinct, FindsMore};
ghost use Rattle.mb_tables.specs.Lists.{In};

use mb_tables::{OutOfMemory, Table};
use std::alloc::Global;
use std::collections::HashSet;
use std::marker::Model;

/// The tables that a walk has met, seen as their list in an order that is left open.
///
/// All that knows how they are kept is here: `expand` asks whether a table is met, and adds it
/// where it is new.
#[derive(Drop)]
pub struct Visited {
    tables: HashSet<Table>,
}

impl Model for Visited {
    ghost use Rattle.std.specs.Prelude.{List, ℕ};

    ghost Value = { List (List ℕ) };

    ghost view = { λ v. v.tables.keys };
}

impl Visited {
    /// No table. It takes no memory.
    pub fn new(alloc: Global) -> Visited
        ensures { result ≡ [] }
    {
        Visited {
            tables: HashSet::new(alloc),
        }
    }

    /// The number of tables.
    pub fn len(&self) -> usize
        ensures tables { result ≡ length self.now }
        ensures once { AreDistinct self.now }
    {
        self.tables.len()
    }

    /// Whether the table was met.
    pub fn contains(&self, table: &Table) -> bool
        ensures { IsTrue result ↔ In table.now self.now }
    {
        self.tables.contains(table)
    }

    /// Adds a table that was not met. After a refusal the tables are as they were.
    pub fn insert(&mut self, table: Table) -> Result<(), OutOfMemory>
        requires new { In table self.old → ⊥ }
        ensures added { OnOk result (IsPermutation (table ∷ self.old) self.new) }
        ensures kept { OnErr result (self.new ≡ self.old) }
    {
        self.tables.insert(table)?;
        Ok(())
    }

    /// Adds the tables of another set that are new, and lists these alone.
    pub fn take_new(&mut self, other: &Visited, next: &mut Vec<Table>) -> Result<(), OutOfMemory>
        ensures { OnOk result (FindsMore (λ v. In v other.now)
            self.old self.new next.old.items next.new.items) }
    {
        for table in other.tables.iter() {
            self.take_one(table, next)?;
        }
        Ok(())
    }

    /// Adds a table where it is new, and lists it then.
    fn take_one(&mut self, table: &Table, next: &mut Vec<Table>) -> Result<(), OutOfMemory>
        ensures { OnOk result (FindsMore (λ v. v ≡ table.now)
            self.old self.new next.old.items next.new.items) }
    {
        if self.contains(table) {
            return Ok(());
        }
        self.insert(table.try_copy()?)?;
        next.push(table.try_copy()?)?;
        Ok(())
    }
}
