//! A batch in one transaction.
ghost use Rattle.std.specs.Prelude.{◌≡◌, ◌+◌, ◌<◌, ◌==◌, false, length, IsTrue, OnErr, OnOk};
ghost use Rattle.std.specs.FinMap.{insert, remove};
ghost use Rattle.sqlite.specs.Held.{state};
ghost use Rattle.sqlite.specs.State.{HasCleanDisk, IsUnchanged, KeepsCommit, Survives};
ghost use Rattle.farm_keeper.specs.Rows.{after, delete_all, key_of, put_all};
ghost use Rattle.keeper_sqlite.specs.Told.{HasChanged, IsUndone, IsWritten, MayWrite, Within};

use crate::statements::{delete_row, put_row};
use farm_keeper::{Batch, Row};
use sqlite::{Alter, Connection, Error, Transaction};

fn put_one<S: Alter>(tx: &mut Transaction<'_, S>, row: &Row) -> Result<(), Error>
    ensures same_reference { tx.new.conn.ghost_name ≡ tx.old.conn.ghost_name }
    ensures put { HasCleanDisk (state S.Store tx.new.conn.now) → IsTrue (state S.Store tx.old.conn.now).in_transaction
        → OnOk result (Within (state S.Store tx.old.conn.now) (state S.Store tx.new.conn.now) (λ rows. insert rows (key_of row.now) row.now.bytes)) }
    ensures kept { HasCleanDisk (state S.Store tx.new.conn.now) → IsTrue (state S.Store tx.old.conn.now).in_transaction
        → KeepsCommit (state S.Store tx.old.conn.now) (state S.Store tx.new.conn.now) }
    ensures survives { Survives (state S.Store tx.old.conn.now) (state S.Store tx.new.conn.now) (λ _. ⊥) }
{
    let Ok(id) = i64::try_from(row.id) else {
        return Err(Error::IntegralValueOutOfRange(1));
    };
    put_row(tx, u32::from(row.kind), id, row.bytes.as_slice())?;
    Ok(())
}

fn delete_one<S: Alter>(tx: &mut Transaction<'_, S>, key: &(u8, u64)) -> Result<(), Error>
    ensures same_reference { tx.new.conn.ghost_name ≡ tx.old.conn.ghost_name }
    ensures deleted { HasCleanDisk (state S.Store tx.new.conn.now) → IsTrue (state S.Store tx.old.conn.now).in_transaction
        → OnOk result (Within (state S.Store tx.old.conn.now) (state S.Store tx.new.conn.now) (λ rows. remove rows key.now)) }
    ensures kept { HasCleanDisk (state S.Store tx.new.conn.now) → IsTrue (state S.Store tx.old.conn.now).in_transaction
        → KeepsCommit (state S.Store tx.old.conn.now) (state S.Store tx.new.conn.now) }
    ensures survives { Survives (state S.Store tx.old.conn.now) (state S.Store tx.new.conn.now) (λ _. ⊥) }
{
    let Ok(id) = i64::try_from(key.1) else {
        return Err(Error::IntegralValueOutOfRange(1));
    };
    delete_row(tx, u32::from(key.0), id)?;
    Ok(())
}

fn put_each<S: Alter>(tx: &mut Transaction<'_, S>, puts: &[Row]) -> Result<(), Error>
    ensures same_reference { tx.new.conn.ghost_name ≡ tx.old.conn.ghost_name }
    ensures put { HasCleanDisk (state S.Store tx.new.conn.now) → IsTrue (state S.Store tx.old.conn.now).in_transaction
        → OnOk result (HasChanged (state S.Store tx.old.conn.now) (state S.Store tx.new.conn.now) (length puts.now) (put_all puts.now)) }
    ensures kept { HasCleanDisk (state S.Store tx.new.conn.now) → IsTrue (state S.Store tx.old.conn.now).in_transaction
        → KeepsCommit (state S.Store tx.old.conn.now) (state S.Store tx.new.conn.now) }
    ensures survives { Survives (state S.Store tx.old.conn.now) (state S.Store tx.new.conn.now) (λ _. ⊥) }
{
    for row in puts {
        put_one(tx, row)?;
    }
    Ok(())
}

fn delete_each<S: Alter>(tx: &mut Transaction<'_, S>, keys: &[(u8, u64)]) -> Result<(), Error>
    ensures same_reference { tx.new.conn.ghost_name ≡ tx.old.conn.ghost_name }
    ensures deleted { HasCleanDisk (state S.Store tx.new.conn.now) → IsTrue (state S.Store tx.old.conn.now).in_transaction
        → OnOk result (HasChanged (state S.Store tx.old.conn.now) (state S.Store tx.new.conn.now) (length keys.now) (delete_all keys.now)) }
    ensures kept { HasCleanDisk (state S.Store tx.new.conn.now) → IsTrue (state S.Store tx.old.conn.now).in_transaction
        → KeepsCommit (state S.Store tx.old.conn.now) (state S.Store tx.new.conn.now) }
    ensures survives { Survives (state S.Store tx.old.conn.now) (state S.Store tx.new.conn.now) (λ _. ⊥) }
{
    for key in keys {
        delete_one(tx, key)?;
    }
    Ok(())
}

/// Makes the puts and then the deletes of a batch, and commits nothing.
fn change<S: Alter>(tx: &mut Transaction<'_, S>, batch: &Batch) -> Result<(), Error>
    ensures same_reference { tx.new.conn.ghost_name ≡ tx.old.conn.ghost_name }
    ensures changed { HasCleanDisk (state S.Store tx.new.conn.now) → IsTrue (state S.Store tx.old.conn.now).in_transaction
        → OnOk result (HasChanged (state S.Store tx.old.conn.now) (state S.Store tx.new.conn.now) (length batch.now.puts + length batch.now.deletes) (after batch.now)) }
    ensures kept { HasCleanDisk (state S.Store tx.new.conn.now) → IsTrue (state S.Store tx.old.conn.now).in_transaction
        → KeepsCommit (state S.Store tx.old.conn.now) (state S.Store tx.new.conn.now) }
    ensures survives { Survives (state S.Store tx.old.conn.now) (state S.Store tx.new.conn.now) (λ _. ⊥) }
{
    put_each(tx, batch.puts.as_slice())?;
    delete_each(tx, batch.deletes.as_slice())
}

/// Makes and commits a batch that isn't empty.
fn transact<S: Alter>(conn: &mut Connection<S>, batch: &Batch) -> Result<(), Error>
    requires idle { conn.old.in_transaction ≡ false }
    requires some { 0 < length batch.now.puts + length batch.now.deletes }
    ensures mode { conn.new.in_transaction ≡ false }
    ensures ok { HasCleanDisk (state S.Store conn.new) → OnOk result (IsWritten batch.now (state S.Store conn.old) (state S.Store conn.new)) }
    ensures err { HasCleanDisk (state S.Store conn.new) → IsTrue (state S.Store conn.new).is_open
        → OnErr result (IsUndone (state S.Store conn.old) (state S.Store conn.new)) }
    ensures survives { Survives (state S.Store conn.old) (state S.Store conn.new) (MayWrite batch.now (state S.Store conn.old)) }
{
    let mut tx = conn.transaction();
    change(&mut tx, batch)?;
    tx.commit()
}

/// An Ok where the connection is open. It reads and writes no row.
fn touch<S: Alter>(conn: &mut Connection<S>) -> Result<(), Error>
    requires { conn.old.in_transaction ≡ false }
    ensures mode { conn.new.in_transaction ≡ false }
    ensures ok { HasCleanDisk (state S.Store conn.new) → OnOk result (IsUnchanged (state S.Store conn.old) (state S.Store conn.new)) }
    ensures err { HasCleanDisk (state S.Store conn.new) → IsTrue (state S.Store conn.new).is_open
        → OnErr result (IsUndone (state S.Store conn.old) (state S.Store conn.new)) }
    ensures survives { Survives (state S.Store conn.old) (state S.Store conn.new) (λ _. ⊥) }
{
    conn.prepare("SELECT 1")?;
    Ok(())
}

/// Makes and commits a batch in one transaction; of an empty one it only finds out whether the connection is open.
pub(crate) fn write<S: Alter>(conn: &mut Connection<S>, batch: &Batch) -> Result<(), Error>
    requires { conn.old.in_transaction ≡ false }
    ensures mode { conn.new.in_transaction ≡ false }
    ensures ok { HasCleanDisk (state S.Store conn.new) → OnOk result (IsWritten batch.now (state S.Store conn.old) (state S.Store conn.new)) }
    ensures err { HasCleanDisk (state S.Store conn.new) → IsTrue (state S.Store conn.new).is_open
        → OnErr result (IsUndone (state S.Store conn.old) (state S.Store conn.new)) }
    ensures survives { Survives (state S.Store conn.old) (state S.Store conn.new) (MayWrite batch.now (state S.Store conn.old)) }
{
    if batch.puts.is_empty() && batch.deletes.is_empty() {
        return touch(conn);
    }
    transact(conn, batch)
}
