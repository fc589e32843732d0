//! The table, which is made where there is nothing yet.
ghost use Rattle.std.specs.Prelude.{◌≡◌, ◌≢◌, ◌≤◌, ◌⊎◌, true, false, Ok, Err, IsTrue, IfOk, OnOk};
ghost use Rattle.sqlite.specs.Held.{state};
ghost use Rattle.sqlite.specs.State.{HasCleanDisk};
ghost use Rattle.sqlite_trees.specs.View.{doubt};
ghost use Rattle.keeper_sqlite.specs.Table.{no_schema, rows_schema};
ghost use Rattle.keeper_sqlite.specs.Told.{IsMade, IsOver, IsReopened};

use crate::reading::{select, test_rows};
use crate::schema_test::{is_no_schema, is_rows_schema};
use sqlite::{Alter, Connection, Error, ErrorCode};
use std::alloc::Global;

const OTHER: Error = Error::SqliteFailure(ErrorCode::NotADatabase);

const CLOSED: Error = Error::SqliteFailure(ErrorCode::Closed);

const IN_TRANSACTION: Error = Error::SqliteFailure(ErrorCode::TransactionState);

fn make_table<S: Alter>(conn: &mut Connection<S>) -> Result<usize, Error>
    requires idle { conn.old.in_transaction ≡ false }
    requires none { conn.old.schema ≡ no_schema }
    ensures made { HasCleanDisk (state S.Store conn.new) → OnOk result (IsMade (state S.Store conn.new)) }
    ensures clean { doubt (state S.Store conn.old).is_clean ≤ doubt (state S.Store conn.new).is_clean }
{
    conn.execute(
        "CREATE TABLE rows (kind INTEGER NOT NULL, id INTEGER NOT NULL, bytes BLOB NOT NULL, PRIMARY KEY (kind, id)) STRICT",
        &[],
    )
}

/// Gives a database that has nothing yet its table.
fn with_table<S: Alter + Drop>(connection: Connection<S>) -> Result<Connection<S>, Error>
    requires idle { connection.in_transaction ≡ false }
    requires none { connection.schema ≡ no_schema }
    ensures over { IfOk result (λ conn. IsOver (state S.Store connection) (state S.Store conn)) }
    ensures mode { IfOk result (λ conn. conn.in_transaction ≡ false) }
{
    let mut conn = connection;
    make_table(&mut conn)?;
    if !conn.is_autocommit() {
        return Err(IN_TRANSACTION);
    }
    Ok(conn)
}

/// A connection over the same store, which reads and tests the whole database again: so its rows are known to be in order.
fn reopen<S: Alter + Drop>(alloc: Global, connection: Connection<S>) -> Result<Connection<S>, Error>
    ensures again { IfOk result (λ conn. HasCleanDisk (state S.Store conn) → IsReopened (state S.Store connection) (state S.Store conn)) }
    ensures clean { IfOk result (λ conn. doubt (state S.Store connection).is_clean ≤ doubt (state S.Store conn).is_clean) }
    ensures mode { IfOk result (λ conn. conn.in_transaction ≡ false) }
{
    let store = connection.into_store();
    if store.is_broken() {
        return Err(CLOSED);
    }
    match Connection::over(alloc, store) {
        Ok(conn) => Ok(conn),
        Err((error, _store)) => Err(error),
    }
}

/// Takes a database that has the table, where each row of it has a kind and an id that can be read.
fn found_table<S: Alter + Drop>(
    alloc: Global,
    connection: Connection<S>,
) -> Result<Connection<S>, Error>
    requires there { connection.schema ≡ rows_schema }
    requires settled { IsTrue (state S.Store connection).is_open → (state S.Store connection).now ≡ (state S.Store connection).committed }
    ensures over { IfOk result (λ conn. IsOver (state S.Store connection) (state S.Store conn)) }
    ensures mode { IfOk result (λ conn. conn.in_transaction ≡ false) }
{
    let mut conn = reopen(alloc, connection)?;
    if !is_rows_schema(conn.schema()) {
        return Err(OTHER);
    }
    let rows = select(&mut conn)?;
    test_rows(rows.as_slice())?;
    Ok(conn)
}

/// Whether the table is there. A database with another schema is an error.
fn has_table<S: Alter>(conn: &Connection<S>) -> Result<bool, Error>
    ensures none { result ≡ Ok false → conn.now.schema ≡ no_schema }
    ensures there { result ≡ Ok true → conn.now.schema ≡ rows_schema }
    ensures other { conn.now.schema ≢ no_schema → conn.now.schema ≢ rows_schema → result ≡ Err (Error.SqliteFailure ErrorCode.NotADatabase) }
{
    if is_no_schema(conn.schema()) {
        return Ok(false);
    }
    if is_rows_schema(conn.schema()) {
        return Ok(true);
    }
    Err(OTHER)
}

/// Makes the table, or takes the one that is there. A database with another schema is refused.
pub(crate) fn take<S: Alter + Drop>(
    alloc: Global,
    connection: Connection<S>,
) -> Result<Connection<S>, Error>
    ensures over { IfOk result (λ conn. IsOver (state S.Store connection) (state S.Store conn)) }
    ensures mode { IfOk result (λ conn. conn.in_transaction ≡ false) }
    ensures other { connection.schema ≢ no_schema → connection.schema ≢ rows_schema
        → (result ≡ Err (Error.SqliteFailure ErrorCode.NotADatabase)) ⊎ (result ≡ Err (Error.SqliteFailure ErrorCode.TransactionState)) }
{
    if !connection.is_autocommit() {
        return Err(IN_TRANSACTION);
    }
    if has_table(&connection)? {
        found_table(alloc, connection)
    } else {
        with_table(connection)
    }
}
