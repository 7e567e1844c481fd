//! The keeper over a database file.
ghost use Rattle.std.specs.Prelude.{◌≡◌, None};
ghost use Rattle.mb_outside.specs.Causes.{HasCause};
ghost use Rattle.mb_outside.specs.Rows.{has_failed};

use crate::sql_keeper::{SqlKeeper, fault_of};
use mb_outside::{KeepFault, Keeper, Row};
use sqlite::{Connection, File, FileStore};
use std::alloc::Global;
use std::fs;
use std::marker::Model;

/// A keeper over a database file.
type Opened = SqlKeeper<FileStore<File>>;

/// The records of a database file. It is seen as its count of faults, and tells nothing of its
/// rows.
///
/// The file is opened at the first call, and made where it isn't there. A refused open is a fault
/// of that call, want of memory apart, and the next call opens again. Once it is open, no other
/// program can open the file, until the keeper is closed or dropped.
#[derive(Drop)]
pub struct FileKeeper<'a> {
    file: DatabaseFile<'a>,
    faults: u64,
}

impl<'a> Model for FileKeeper<'a> {
    ghost use Rattle.std.specs.Prelude.{ℕ};

    ghost Value = { ℕ };

    ghost view = { λ keeper. keeper.faults };
}

impl<'a> FileKeeper<'a> {
    /// The records of the file at a path, which isn't opened yet, with no fault.
    pub fn at(rt: &'a HostRuntime, path: String) -> FileKeeper<'a>
        ensures { result ≡ 0 }
    {
        FileKeeper {
            file: DatabaseFile {
                rt,
                path,
                opened: None,
            },
            faults: 0,
        }
    }

    /// Closes what was opened, and leaves the database in its one file. Where that can't be done,
    /// the log of its changes stays beside it, and the next open finds them.
    pub fn close(self) {
        let FileKeeper { file, faults: _ } = self;
        file.close();
    }
}

/// The same answer, counted where it is a fault.
fn counted<T: Drop>(faults: &mut u64, answer: Result<T, KeepFault>) -> Result<T, KeepFault>
    ensures same { result ≡ answer }
    ensures cause { HasCause faults.old faults.new (has_failed answer) }
{
    if let Err(KeepFault::Failed) = &answer {
        *faults = faults.saturating_add(1);
    }
    answer
}

impl<'a> Keeper for FileKeeper<'a> {
    ghost rows = { λ _. None };

    ghost lasts = { λ _. ⊥ };

    ghost faults = { λ faults. faults };

    fn get(&mut self, alloc: Global, kind: u8, name: &str) -> Result<Option<Vec<u8>>, KeepFault> {
        let answer = match self.file.keeper() {
            Ok(keeper) => keeper.get(alloc, kind, name),
            Err(fault) => Err(fault),
        };
        counted(&mut self.faults, answer)
    }

    fn put(
        &mut self,
        alloc: Global,
        kind: u8,
        name: &str,
        body: &[u8],
    ) -> Result<Option<Vec<u8>>, KeepFault> {
        let answer = match self.file.keeper() {
            Ok(keeper) => keeper.put(alloc, kind, name, body),
            Err(fault) => Err(fault),
        };
        counted(&mut self.faults, answer)
    }

    fn remove(&mut self, kind: u8, name: &str) -> Result<bool, KeepFault> {
        let answer = match self.file.keeper() {
            Ok(keeper) => keeper.remove(kind, name),
            Err(fault) => Err(fault),
        };
        counted(&mut self.faults, answer)
    }

    fn names(&mut self, alloc: Global, kind: u8) -> Result<Vec<String>, KeepFault> {
        let answer = match self.file.keeper() {
            Ok(keeper) => keeper.names(alloc, kind),
            Err(fault) => Err(fault),
        };
        counted(&mut self.faults, answer)
    }

    fn replace_all(&mut self, all: &[Row]) -> Result<(), KeepFault> {
        let answer = match self.file.keeper() {
            Ok(keeper) => keeper.replace_all(all),
            Err(fault) => Err(fault),
        };
        counted(&mut self.faults, answer)
    }
}

/// A database file at a path, and the keeper over it from the first call on.
#[derive(Drop)]
struct DatabaseFile<'a> {
    rt: &'a HostRuntime,
    path: String,
    opened: Option<Opened>,
}

impl<'a> DatabaseFile<'a> {
    /// The keeper over the file, which is opened where it isn't yet.
    fn keeper(&mut self) -> Result<&mut Opened, KeepFault> {
        if self.opened.is_none() {
            self.opened = Some(open_file(self.rt, self.path.as_str())?);
        }
        match &mut self.opened {
            Some(keeper) => Ok(keeper),
            None => Err(KeepFault::Failed),
        }
    }

    /// Closes the file, where it was opened.
    fn close(self) {
        let DatabaseFile { rt, path, opened } = self;
        if let Some(keeper) = opened {
            close_file(rt, path.as_str(), keeper.into_connection());
        }
    }
}

/// A keeper over the database file at a path, which is made where it isn't there.
fn open_file(rt: &HostRuntime, path: &str) -> Result<Opened, KeepFault> {
    match Connection::open(rt, path) {
        Ok(connection) if connection.is_autocommit() => SqlKeeper::over(connection),
        Ok(_) => Err(KeepFault::Failed),
        Err(error) => Err(fault_of(error)),
    }
}

/// Moves the log of the changes into the database file, and takes the log away while the file is
/// still locked, so that no other program can have begun to write to it.
fn close_file(rt: &HostRuntime, path: &str, connection: Connection<FileStore<File>>) {
    if let Ok(_locked) = connection.close_files() {
        remove_log(rt, path);
    }
}

/// Takes away the log beside a database file that has all its changes. One that stays is harmless.
fn remove_log(rt: &HostRuntime, path: &str) {
    if let Ok(log) = format!(in rt.alloc(); "{path}-wal") {
        let _removed = fs::remove_file(rt, log.as_str());
    }
}
