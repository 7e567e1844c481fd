//! The table of records: each function is one statement.
ghost use Rattle.std.specs.FinMap.{empty, get, insert};
ghost use Rattle.std.specs.Prelude.{IfOk, IsTrue, None, OnOk, false, map, option_map, string_bytes, ◌↔◌, ◌≡◌};
ghost use Rattle.mb_outside.specs.Rows.{AreApart, Rows, entry_of, names_of, rows_of};
ghost use Rattle.sqlite.specs.Held.{state};
ghost use Rattle.sqlite.specs.Order.{column};
ghost use Rattle.sqlite.specs.declared.types.Value.TheVariants.{Text as SqlText};
ghost use Rattle.mb_keeper.specs.Effects.{Deleted, Inserted, IsWithin, Keeps, Lacks, Replaced, body_shown, name_shown};
ghost use Rattle.mb_keeper.specs.Known.{Holds, IsLevel, IsMade, Knows};
ghost use Rattle.mb_keeper.specs.RecordTable.{no_schema};

use mb_outside::Row;
use sqlite::{Alter, Connection, Error, Row as Shown, Transaction, params};
use std::alloc::Global;

/// Makes the table.
const CREATE: &str = "CREATE TABLE IF NOT EXISTS records(kind INTEGER NOT NULL, \
    name TEXT NOT NULL, body BLOB NOT NULL, PRIMARY KEY(kind, name)) STRICT";

/// Adds a row.
const INSERT: &str = "INSERT INTO records(kind, name, body) VALUES (?1, ?2, ?3)";

/// Whether the database has no table, index or view.
pub(crate) fn is_blank<S: Alter>(connection: &Connection<S>) -> bool
    ensures { IsTrue result ↔ ((state S.Store connection.now).now.schema ≡ no_schema) }
{
    let schema = connection.schema();
    schema.tables.as_slice().is_empty()
        && schema.indexes.as_slice().is_empty()
        && schema.views.as_slice().is_empty()
}

/// Makes the table where it isn't there.
pub(crate) fn make_table<S: Alter>(connection: &mut Connection<S>) -> Result<usize, Error>
    ensures { (state S.Store connection.old).in_transaction ≡ false
        → (state S.Store connection.old).now.schema ≡ no_schema
        → OnOk result (IsMade (state S.Store connection.new)) }
{
    connection.execute(CREATE, &[])
}

/// Outside a transaction nothing waits for a commit.
fn look<S: Alter>(connection: &Connection<S>)
    ensures { IsLevel (state S.Store connection.now) }
{
    let _autocommit = connection.is_autocommit();
}

/// What the database shows of the body of this kind and name: one row, or none.
fn body_rows<S: Alter>(
    connection: &mut Connection<S>,
    kind: u8,
    name: &str,
) -> Result<Vec<Shown>, Error>
    ensures { Knows (state S.Store connection.old)
        → Keeps (state S.Store connection.old) (state S.Store connection.new) (λ before after.
        (after ≡ before) × IfOk result (λ rows.
        rows.items ≡ body_shown (get before (kind, name.now)))) }
{
    look(connection);
    connection.query_all(
        "SELECT body FROM records WHERE kind = ?1 AND name = ?2",
        params![u32::from(kind), name],
    )
}

/// The body of the row of this kind and name.
pub(crate) fn find_body<S: Alter>(
    connection: &mut Connection<S>,
    kind: u8,
    name: &str,
) -> Result<Option<Vec<u8>>, Error>
    ensures { Knows (state S.Store connection.old)
        → Keeps (state S.Store connection.old) (state S.Store connection.new) (λ before after.
        (after ≡ before) × IfOk result (λ found.
        option_map (λ body. body.items) found ≡ get before (kind, name.now))) }
{
    let rows = body_rows(connection, kind, name)?;
    match rows.first() {
        None => Ok(None),
        Some(row) => Ok(Some(row.get(0)?)),
    }
}

/// What the database shows of the names of this kind.
fn name_rows<S: Alter>(connection: &mut Connection<S>, kind: u8) -> Result<Vec<Shown>, Error>
    ensures { Knows (state S.Store connection.old)
        → Keeps (state S.Store connection.old) (state S.Store connection.new) (λ before after.
        (after ≡ before) × IfOk result (λ rows.
        rows.items ≡ map name_shown (names_of kind before))) }
{
    look(connection);
    connection.query_all(
        "SELECT name FROM records WHERE kind = ?1 ORDER BY name",
        params![u32::from(kind)],
    )
}

/// The texts in the first columns of rows.
fn texts_of(alloc: Global, rows: &[Shown]) -> Result<Vec<String>, Error>
    ensures { IfOk result (λ names.
        map (λ name. SqlText (string_bytes name)) names.items
        ≡ map (λ row. column row 0) rows.now) }
{
    let mut names = Vec::new(alloc);
    for row in rows {
        names.push(row.get(0)?)?;
    }
    Ok(names)
}

/// The names of the rows of this kind, in ascending order of bytes.
pub(crate) fn find_names<S: Alter>(
    alloc: Global,
    connection: &mut Connection<S>,
    kind: u8,
) -> Result<Vec<String>, Error>
    ensures { Knows (state S.Store connection.old)
        → Keeps (state S.Store connection.old) (state S.Store connection.new) (λ before after.
        (after ≡ before) × IfOk result (λ names.
        map string_bytes names.items ≡ names_of kind before)) }
{
    let rows = name_rows(connection, kind)?;
    texts_of(alloc, rows.as_slice())
}

/// Adds a row, where none has its kind and name.
pub(crate) fn insert_row<S: Alter>(
    connection: &mut Connection<S>,
    kind: u8,
    name: &str,
    body: &[u8],
) -> Result<usize, Error>
    ensures { Knows (state S.Store connection.old)
        → Lacks (state S.Store connection.old) (kind, name.now)
        → Keeps (state S.Store connection.old) (state S.Store connection.new)
        (Inserted (kind, name.now) body.now result) }
{
    look(connection);
    connection.execute(INSERT, params![u32::from(kind), name, body])
}

/// Takes the row of this kind and name out.
pub(crate) fn delete_row<S: Alter>(
    connection: &mut Connection<S>,
    kind: u8,
    name: &str,
) -> Result<usize, Error>
    ensures { Knows (state S.Store connection.old)
        → Keeps (state S.Store connection.old) (state S.Store connection.new)
        (Deleted (kind, name.now) result) }
{
    look(connection);
    connection.execute(
        "DELETE FROM records WHERE kind = ?1 AND name = ?2",
        params![u32::from(kind), name],
    )
}

/// Takes all rows out, within a transaction.
fn delete_all<S: Alter>(transaction: &mut Transaction<'_, S>) -> Result<usize, Error>
    ensures same_reference { transaction.new.conn.ghost_name ≡ transaction.old.conn.ghost_name }
    ensures within { IsWithin (state S.Store transaction.old.conn.now)
        (state S.Store transaction.new.conn.now) }
    ensures cleared { OnOk result ((before : Rows)
        → Holds (state S.Store transaction.old.conn.now) before
        → Holds (state S.Store transaction.new.conn.now) empty) }
{
    transaction.execute("DELETE FROM records", &[])
}

/// Adds a row, within a transaction in which none has its kind and name.
fn insert_within<S: Alter>(transaction: &mut Transaction<'_, S>, row: &Row) -> Result<usize, Error>
    ensures same_reference { transaction.new.conn.ghost_name ≡ transaction.old.conn.ghost_name }
    ensures within { IsWithin (state S.Store transaction.old.conn.now)
        (state S.Store transaction.new.conn.now) }
    ensures added { OnOk result ((before : Rows)
        → get before (entry_of row.now).0 ≡ None
        → Holds (state S.Store transaction.old.conn.now) before
        → Holds (state S.Store transaction.new.conn.now)
        (insert before (entry_of row.now).0 (entry_of row.now).1)) }
{
    transaction.execute(INSERT, params![u32::from(row.kind), &row.name, &row.body])
}

/// Adds rows, within a transaction that has none.
fn insert_all<S: Alter>(transaction: &mut Transaction<'_, S>, rows: &[Row]) -> Result<(), Error>
    requires { AreApart rows.now }
    ensures same_reference { transaction.new.conn.ghost_name ≡ transaction.old.conn.ghost_name }
    ensures within { IsWithin (state S.Store transaction.old.conn.now)
        (state S.Store transaction.new.conn.now) }
    ensures added { OnOk result (Holds (state S.Store transaction.old.conn.now) empty
        → Holds (state S.Store transaction.new.conn.now) (rows_of rows.now)) }
{
    for row in rows {
        insert_within(transaction, row)?;
    }
    Ok(())
}

/// Makes these the rows, in one transaction.
pub(crate) fn replace_rows<S: Alter>(
    connection: &mut Connection<S>,
    rows: &[Row],
) -> Result<(), Error>
    requires settled { connection.old.in_transaction ≡ false }
    requires apart { AreApart rows.now }
    ensures { Knows (state S.Store connection.old)
        → Keeps (state S.Store connection.old) (state S.Store connection.new)
        (Replaced rows.now result) }
{
    look(connection);
    let mut transaction = connection.transaction();
    delete_all(&mut transaction)?;
    insert_all(&mut transaction, rows)?;
    transaction.commit()
}
