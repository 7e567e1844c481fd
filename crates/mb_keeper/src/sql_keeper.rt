//! A keeper of records over a database.
ghost use Rattle.std.specs.Prelude.{Err, IfErr, IfOk, IsErr, IsTrue, Ok, Option, ℕ, ◌≡◌};
ghost use Rattle.mb_outside.specs.Causes.{HasCause};
ghost use Rattle.mb_outside.specs.Rows.{has_failed};
ghost use Rattle.sqlite.specs.Held.{state};
ghost use Rattle.mb_keeper.specs.Known.{Knows, known_prop};

use crate::table;
use mb_outside::{KeepFault, Keeper, Row};
use sqlite::{Alter, Connection, Error, ErrorCode, MemStore};
use std::alloc::Global;

/// A keeper of records in one table of a database. Each call that changes rows is one transaction.
/// It tells its rows where it made the table in a database that had nothing, for as long as the
/// connection is open and the disk returns what was written.
#[derive(Drop)]
pub struct SqlKeeper<S: Alter = MemStore> {
    connection: Connection<S>,
    faults: u64,
    is_known: bool,
    ghost known: { IsTrue is_known
        → Knows (state S.Store connection) } by { known_prop is_known
            (state S.Store connection) },
}

/// A refusal of the database as one of a keeper.
pub(crate) fn fault_of(error: Error) -> KeepFault {
    match error {
        Error::SqliteFailure(ErrorCode::OutOfMemory) => KeepFault::OutOfMemory,
        _ => KeepFault::Failed,
    }
}

/// The same answer. A refusal is a fault, which is counted, except for want of memory.
fn counted<T: Drop>(faults: &mut u64, answer: Result<T, Error>) -> Result<T, KeepFault>
    ensures answered { IfOk answer (λ value. result ≡ Ok value) }
    ensures refused { IfErr answer (λ _. IsErr result) }
    ensures cause { HasCause faults.old faults.new (has_failed result) }
{
    match answer {
        Ok(value) => Ok(value),
        Err(error) => {
            let fault = fault_of(error);
            if fault == KeepFault::Failed {
                *faults = faults.saturating_add(1);
            }
            Err(fault)
        }
    }
}

impl SqlKeeper<MemStore> {
    ghost use Rattle.std.specs.FinMap.{empty};
    ghost use Rattle.std.specs.Prelude.{Some};
    ghost use Rattle.sqlite.specs.Steps.{over_memory};
    ghost use Rattle.mb_keeper.specs.Kept.{kept, lasts};

    /// A keeper over a new database in memory, which tells that it has no row, and goes on telling.
    pub fn in_memory(alloc: Global) -> Result<SqlKeeper<MemStore>, KeepFault>
        ensures empty { IfOk result (λ keeper. kept over_memory keeper ≡ Some empty) }
        ensures lasts { IfOk result (lasts over_memory) }
    {
        match Connection::open_in_memory(alloc) {
            Ok(connection) => SqlKeeper::over(connection),
            Err(_) => Err(KeepFault::OutOfMemory),
        }
    }
}

impl<S: Alter + Drop> SqlKeeper<S> {
    ghost use Rattle.std.specs.FinMap.{empty};
    ghost use Rattle.std.specs.Prelude.{Some, false};
    ghost use Rattle.mb_keeper.specs.Kept.{IsSound, behind, kept};
    ghost use Rattle.mb_keeper.specs.RecordTable.{no_schema};

    /// A keeper over this database, in which it makes the table where it isn't there. A refusal
    /// drops the connection. Over a database that had nothing, it tells that it has no row.
    pub fn over(mut connection: Connection<S>) -> Result<SqlKeeper<S>, KeepFault>
        requires settled { connection.in_transaction ≡ false }
        ensures empty { connection.schema ≡ no_schema → IfOk result (λ keeper.
            IsSound S.Store keeper → kept S.Store keeper ≡ Some empty) }
    {
        let is_known = table::is_blank(&connection);
        match table::make_table(&mut connection) {
            Ok(_) => Ok(SqlKeeper {
                connection,
                faults: 0,
                is_known,
            }),
            Err(error) => Err(fault_of(error)),
        }
    }

    /// The database, given back.
    pub fn into_connection(self) -> Connection<S>
        ensures { result ≡ behind S.Store self }
    {
        let SqlKeeper {
            connection,
            faults: _,
            is_known: _,
        } = self;
        connection
    }
}

impl<S: Alter> Keeper for SqlKeeper<S> {
    ghost use Rattle.mb_keeper.specs.Kept.{kept, lasts};

    ghost rows = { kept S.Store };

    ghost lasts = { lasts S.Store };

    ghost faults = { λ keeper. keeper.faults };

    fn get(&mut self, _alloc: Global, kind: u8, name: &str) -> Result<Option<Vec<u8>>, KeepFault> {
        let found = table::find_body(&mut self.connection, kind, name);
        counted(&mut self.faults, found)
    }

    fn put(
        &mut self,
        _alloc: Global,
        kind: u8,
        name: &str,
        body: &[u8],
    ) -> Result<Option<Vec<u8>>, KeepFault> {
        let found = table::find_body(&mut self.connection, kind, name);
        if let Some(kept) = counted(&mut self.faults, found)? {
            return Ok(Some(kept));
        }
        let added = table::insert_row(&mut self.connection, kind, name, body);
        counted(&mut self.faults, added)?;
        Ok(None)
    }

    fn remove(&mut self, kind: u8, name: &str) -> Result<bool, KeepFault> {
        let found = table::find_body(&mut self.connection, kind, name);
        if counted(&mut self.faults, found)?.is_none() {
            return Ok(false);
        }
        let removed = table::delete_row(&mut self.connection, kind, name);
        counted(&mut self.faults, removed)?;
        Ok(true)
    }

    fn names(&mut self, alloc: Global, kind: u8) -> Result<Vec<String>, KeepFault> {
        let names = table::find_names(alloc, &mut self.connection, kind);
        counted(&mut self.faults, names)
    }

    fn replace_all(&mut self, all: &[Row]) -> Result<(), KeepFault> {
        // A statement on a disk that lies may leave a transaction open, as nothing rules out.
        if !self.connection.is_autocommit() {
            self.faults = self.faults.saturating_add(1);
            return Err(KeepFault::Failed);
        }
        let replaced = table::replace_rows(&mut self.connection, all);
        counted(&mut self.faults, replaced)
    }
}
