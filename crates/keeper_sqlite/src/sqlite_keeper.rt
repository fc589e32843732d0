//! The keeper.
ghost use Rattle.std.specs.Prelude.{◌≡◌, ◌↔◌, ◌≢◌, ◌⊎◌, false, Err, IfOk, IsTrue};
ghost use Rattle.sqlite.specs.Held.{state};
ghost use Rattle.fault_counts.specs.Counts.{incremented_if};
ghost use Rattle.farm_keeper.specs.Faults.{is_store_failure};
ghost use Rattle.keeper_sqlite.specs.Table.{no_schema, rows_schema};
ghost use Rattle.keeper_sqlite.specs.Told.{IsOver};

use crate::batches::write;
use crate::opening::take;
use crate::reading::load_rows;
use crate::schema_test::{is_no_schema, is_rows_schema};
use farm_keeper::{Batch, Keeper, KeeperFault, Row};
use farm_types::Items;
use sqlite::{Alter, Connection, Error, ErrorCode};
use std::alloc::Global;

/// A keeper whose rows are the one table of a database.
#[derive(Drop)]
pub struct SqliteKeeper<S: Alter> {
    conn: Connection<S>,
    faults: u64,

    ghost idle: { conn.in_transaction ≡ false },
}

/// What an error is to a keeper. Each but want of memory is a fault, and is counted.
fn blame(error: Error, faults: &mut u64) -> KeeperFault
    ensures counted { faults.new ≡ incremented_if (is_store_failure result) faults.old }
    ensures memory { error ≡ Error.SqliteFailure ErrorCode.OutOfMemory → result ≡ KeeperFault.NoMemory }
    ensures failed { error ≢ Error.SqliteFailure ErrorCode.OutOfMemory → result ≡ KeeperFault.Failed }
{
    if matches!(error, Error::SqliteFailure(ErrorCode::OutOfMemory)) {
        return KeeperFault::NoMemory;
    }
    *faults = faults.saturating_add(1);
    KeeperFault::Failed
}

impl<S: Alter + Drop> SqliteKeeper<S> {
    /// Whether a database is one that a keeper may be over: it has nothing yet, or the keeper's table and nothing else.
    pub fn takes(connection: &Connection<S>) -> bool
        ensures { IsTrue result ↔ (connection.now.schema ≡ no_schema) ⊎ (connection.now.schema ≡ rows_schema) }
    {
        is_no_schema(connection.schema()) || is_rows_schema(connection.schema())
    }

    /// A keeper over a connection that isn't in a transaction. It makes the table where the database has nothing yet, takes
    /// it where it is there, with rows that can be read, and refuses any other database.
    pub fn over(alloc: Global, connection: Connection<S>) -> Result<SqliteKeeper<S>, KeeperFault>
        ensures over { IfOk result (λ k. IsOver (state S.Store connection) (state S.Store k.conn)) }
        ensures count { IfOk result (λ k. k.faults ≡ 0) }
        ensures other { connection.schema ≢ no_schema → connection.schema ≢ rows_schema → result ≡ Err KeeperFault.Failed }
    {
        let mut faults = 0;
        match take(alloc, connection) {
            Ok(conn) => Ok(SqliteKeeper { conn, faults: 0 }),
            Err(error) => Err(blame(error, &mut faults)),
        }
    }

    /// The connection, with the rows that it holds.
    pub fn into_connection(self) -> Connection<S>
        ensures { result ≡ self.conn }
    {
        let SqliteKeeper { conn, faults: _ } = self;
        conn
    }
}

impl<S: Alter> Keeper for SqliteKeeper<S> {
    ghost use Rattle.std.specs.Prelude.{⊤};
    ghost use Rattle.sqlite.specs.Held.{state};
    ghost use Rattle.sqlite.specs.State.{HasCleanDisk};
    ghost use Rattle.keeper_sqlite.specs.Told.{Holds, Leaves};

    ghost tells = { λ k. HasCleanDisk (state S.Store k.conn) };

    ghost holds = { λ k. Holds (state S.Store k.conn) };

    ghost left = { λ k. Leaves (state S.Store k.conn) };

    ghost faults = { λ k. k.faults };

    // what a file holds after a commit has no clause beyond those of every keeper
    ghost commits = { λ batch answer before now. ⊤ };

    ghost use Rattle.keeper_sqlite.specs.Remains.{held_is, leaves_held, leaves_some, never_open};

    ghost leaves = { λ k tells. leaves_some (S.Store.view k.conn.store).is_clean (S.Store.recovers k.conn.store) tells (S.Store.survives k.conn.store tells) };

    ghost leaves_held = { λ k rows tells only. leaves_held (S.Store.view k.conn.store).is_open (S.Store.view k.conn.store).is_clean (S.Store.view k.conn.store).committed
        (S.Store.recovers k.conn.store) rows tells (S.Store.stays k.conn.store) (λ is. held_is _ rows (only.held tells is))
        (λ shut other. only.no_others other (λ clean is. never_open (S.Store.view k.conn.store).is_open shut is)) };

    fn load(&mut self, alloc: Global) -> Result<Items<Row>, KeeperFault> {
        match load_rows(alloc, &mut self.conn) {
            Ok(rows) => Ok(rows),
            Err(error) => Err(blame(error, &mut self.faults)),
        }
    }

    fn commit(&mut self, _: Global, batch: Batch) -> Result<(), KeeperFault> {
        match write(&mut self.conn, &batch) {
            Ok(()) => Ok(()),
            Err(error) => Err(blame(error, &mut self.faults)),
        }
    }
}
