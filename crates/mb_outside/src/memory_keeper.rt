//! Keepers in memory: one kind that never fails, and one that fails at listed calls.
ghost use Rattle.std.specs.Prelude.{◌≡◌, ◌≢◌, Err, IfOk, OnErr, OnOk};
ghost use Rattle.std.specs.FinMap.{empty, get, insert};
ghost use Rattle.std.specs.Option.{option_copied};
ghost use Rattle.mb_outside.specs.Calls.{after_next, is_next_listed};
ghost use Rattle.mb_outside.specs.Causes.{HasCause};
ghost use Rattle.mb_outside.specs.KeeperInMemory.{no_rows};
ghost use Rattle.mb_outside.specs.Rows.{Adds, AreApart, Finds, Lists, Replaces, TakesOut, has_failed, rows_of};
ghost use Rattle.mb_outside.specs.RowsInTree.{key_of, tree_rows};

use crate::calls::FailingCalls;
use crate::keeper::{KeepFault, Keeper, Row};
use std::alloc::{AllocError, Global};
use std::collections::BTreeMap;
use std::marker::Model;

/// The key of a row in a tree.
#[derive(PartialEq, Eq, PartialOrd, Ord, Drop)]
pub(crate) struct RowKey {
    pub(crate) kind: u8,
    pub(crate) name: String,
}

impl RowKey {
    /// The key of this kind and name.
    fn of(alloc: Global, kind: u8, name: &str) -> Result<RowKey, AllocError>
        ensures { IfOk result (λ key. key_of key ≡ (kind, name.now)) }
    {
        Ok(RowKey {
            kind,
            name: String::from_str(alloc, name)?,
        })
    }
}

/// A keeper in memory that never fails. It is seen as its rows, and tells them.
#[derive(Drop)]
pub struct SureKeeper {
    alloc: Global,
    bodies: BTreeMap<RowKey, Vec<u8>>,
}

impl Model for SureKeeper {
    ghost use Rattle.mb_outside.specs.Rows.{Rows, rows_code};
    ghost use Rattle.mb_outside.specs.RowsInTree.{tree_rows};

    ghost Value = { Rows };

    ghost coded = { rows_code };

    ghost view = { λ keeper. tree_rows keeper.bodies };
}

impl SureKeeper {
    /// A keeper with no row yet, which takes memory from the allocator.
    pub fn new(alloc: Global) -> SureKeeper
        ensures { result ≡ empty }
    {
        SureKeeper {
            alloc,
            bodies: BTreeMap::new(alloc),
        }
    }
}

/// The body that the tree has under a key.
fn body_under<'a>(bodies: &'a BTreeMap<RowKey, Vec<u8>>, key: &RowKey) -> Option<&'a [u8]>
    ensures { option_copied result ≡ get (tree_rows bodies.now) (key_of key.now) }
{
    match bodies.get(key) {
        Some(body) => Some(body.as_slice()),
        None => None,
    }
}

/// Puts a body under a key in the tree.
fn put_under(
    bodies: &mut BTreeMap<RowKey, Vec<u8>>,
    key: RowKey,
    body: Vec<u8>,
) -> Result<(), AllocError>
    ensures put { OnOk result (tree_rows bodies.new
        ≡ insert (tree_rows bodies.old) (key_of key) body.items) }
    ensures same { OnErr result (tree_rows bodies.new ≡ tree_rows bodies.old) }
{
    match bodies.insert(key, body) {
        Ok(_) => Ok(()),
        Err(_) => Err(AllocError),
    }
}

/// The tree of rows. It goes from the last to the first, as the definition does.
fn tree_of(alloc: Global, rows: &[Row]) -> Result<BTreeMap<RowKey, Vec<u8>>, AllocError>
    ensures { IfOk result (λ tree. tree_rows tree ≡ rows_of rows.now) }
{
    let mut bodies = BTreeMap::new(alloc);
    for row in rows.iter().rev() {
        let key = RowKey::of(alloc, row.kind, row.name.as_str())?;
        let body = Vec::from_slice(alloc, row.body.as_slice())?;
        put_under(&mut bodies, key, body)?;
    }
    Ok(bodies)
}

impl Keeper for SureKeeper {
    ghost use Rattle.std.specs.Prelude.{Some};

    ghost rows = { λ keeper. Some keeper };

    ghost lasts = { λ _. Unit {0} };

    ghost faults = { λ _. 0 };

    fn get(&mut self, alloc: Global, kind: u8, name: &str) -> Result<Option<Vec<u8>>, KeepFault> {
        let key = RowKey::of(alloc, kind, name)?;
        match body_under(&self.bodies, &key) {
            None => Ok(None),
            Some(body) => Ok(Some(Vec::from_slice(alloc, body)?)),
        }
    }

    fn put(
        &mut self,
        alloc: Global,
        kind: u8,
        name: &str,
        body: &[u8],
    ) -> Result<Option<Vec<u8>>, KeepFault> {
        let key = RowKey::of(self.alloc, kind, name)?;
        if let Some(kept) = body_under(&self.bodies, &key) {
            return Ok(Some(Vec::from_slice(alloc, kept)?));
        }
        let body = Vec::from_slice(self.alloc, body)?;
        put_under(&mut self.bodies, key, body)?;
        Ok(None)
    }

    fn remove(&mut self, kind: u8, name: &str) -> Result<bool, KeepFault> {
        let key = RowKey::of(self.alloc, kind, name)?;
        match self.bodies.remove(&key) {
            Some(_) => Ok(true),
            None => Ok(false),
        }
    }

    fn names(&mut self, alloc: Global, kind: u8) -> Result<Vec<String>, KeepFault> {
        let mut names = Vec::new(alloc);
        for key in self.bodies.keys() {
            if key.kind == kind {
                names.push(String::from_str(alloc, key.name.as_str())?)?;
            }
        }
        Ok(names)
    }

    fn replace_all(&mut self, all: &[Row]) -> Result<(), KeepFault> {
        self.bodies = tree_of(self.alloc, all)?;
        Ok(())
    }
}

/// A keeper in memory whose listed calls fail. It is seen as its rows, which it tells, and the
/// calls made of it, numbered from 1.
///
/// A call whose number is listed answers `Failed`, whatever else holds, and leaves the rows as they
/// are. The count of faults rises at these calls and no others.
#[derive(Drop)]
pub struct MemKeeper {
    keeper: SureKeeper,
    calls: FailingCalls,
}

impl Model for MemKeeper {
    ghost use Rattle.mb_outside.specs.KeeperInMemory.{KeeperInMemory, keeper_in_memory_code};

    ghost Value = { KeeperInMemory };

    ghost coded = { keeper_in_memory_code };

    ghost view = { λ m. record { rows = m.keeper; calls = m.calls } };
}

impl MemKeeper {
    /// A keeper with no row yet, of which the calls with these numbers fail.
    pub fn try_new(alloc: Global, fail: &[u32]) -> Result<MemKeeper, AllocError>
        ensures { IfOk result (λ keeper. keeper ≡ no_rows fail.now) }
    {
        Ok(MemKeeper {
            keeper: SureKeeper::new(alloc),
            calls: FailingCalls::try_new(alloc, fail)?,
        })
    }

    /// Counts a call, and refuses it where it is listed.
    fn admit(&mut self) -> Result<(), KeepFault>
        ensures failed { has_failed result ≡ is_next_listed self.old.calls }
        ensures only { result ≢ Err KeepFault.OutOfMemory }
        ensures counted { self.new.calls ≡ after_next self.old.calls }
        ensures cause { HasCause self.old.calls.faults self.new.calls.faults (has_failed result) }
        ensures same { self.new.rows ≡ self.old.rows }
    {
        let listed = self.calls.is_next_listed();
        self.calls.count(listed);
        if listed {
            return Err(KeepFault::Failed);
        }
        Ok(())
    }
}

impl Keeper for MemKeeper {
    ghost use Rattle.std.specs.Prelude.{Some};

    ghost rows = { λ keeper. Some keeper.rows };

    ghost lasts = { λ _. Unit {0} };

    ghost faults = { λ keeper. keeper.calls.faults };

    fn get(&mut self, alloc: Global, kind: u8, name: &str) -> Result<Option<Vec<u8>>, KeepFault>
        ensures told { Finds (kind, name.now) self.old.rows self.new.rows result }
        ensures failed { has_failed result ≡ is_next_listed self.old.calls }
        ensures counted { self.new.calls ≡ after_next self.old.calls }
        ensures cause { HasCause self.old.calls.faults self.new.calls.faults (has_failed result) }
    {
        self.admit()?;
        self.keeper.get(alloc, kind, name)
    }

    fn put(
        &mut self,
        alloc: Global,
        kind: u8,
        name: &str,
        body: &[u8],
    ) -> Result<Option<Vec<u8>>, KeepFault>
        ensures told { Adds (kind, name.now) body.now self.old.rows self.new.rows result }
        ensures failed { has_failed result ≡ is_next_listed self.old.calls }
        ensures counted { self.new.calls ≡ after_next self.old.calls }
        ensures cause { HasCause self.old.calls.faults self.new.calls.faults (has_failed result) }
    {
        self.admit()?;
        self.keeper.put(alloc, kind, name, body)
    }

    fn remove(&mut self, kind: u8, name: &str) -> Result<bool, KeepFault>
        ensures told { TakesOut (kind, name.now) self.old.rows self.new.rows result }
        ensures failed { has_failed result ≡ is_next_listed self.old.calls }
        ensures counted { self.new.calls ≡ after_next self.old.calls }
        ensures cause { HasCause self.old.calls.faults self.new.calls.faults (has_failed result) }
    {
        self.admit()?;
        self.keeper.remove(kind, name)
    }

    fn names(&mut self, alloc: Global, kind: u8) -> Result<Vec<String>, KeepFault>
        ensures told { Lists kind self.old.rows self.new.rows result }
        ensures failed { has_failed result ≡ is_next_listed self.old.calls }
        ensures counted { self.new.calls ≡ after_next self.old.calls }
        ensures cause { HasCause self.old.calls.faults self.new.calls.faults (has_failed result) }
    {
        self.admit()?;
        self.keeper.names(alloc, kind)
    }

    fn replace_all(&mut self, all: &[Row]) -> Result<(), KeepFault>
        requires { AreApart all.now }
        ensures told { Replaces all.now self.old.rows self.new.rows result }
        ensures failed { has_failed result ≡ is_next_listed self.old.calls }
        ensures counted { self.new.calls ≡ after_next self.old.calls }
        ensures cause { HasCause self.old.calls.faults self.new.calls.faults (has_failed result) }
    {
        self.admit()?;
        self.keeper.replace_all(all)
    }
}
