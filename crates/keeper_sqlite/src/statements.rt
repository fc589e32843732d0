//! The statements, each in a function of its own.
ghost use Rattle.std.specs.Prelude.{◌≡◌, ℕ, pos, false, IsTrue, IfOk, OnOk};
ghost use Rattle.std.specs.FinMap.{insert, remove};
ghost use Rattle.sqlite.specs.Held.{state};
ghost use Rattle.sqlite.specs.State.{HasCleanDisk, KeepsCommit, Survives};
ghost use Rattle.keeper_sqlite.specs.Told.{Within};

use sqlite::{Alter, Error, Transaction, params};

/// Puts a row in place of the one of its kind and id.
pub(crate) fn put_row<S: Alter>(
    tx: &mut Transaction<'_, S>,
    kind: u32,
    id: i64,
    bytes: &[u8],
) -> Result<usize, Error>
    ensures same_reference { tx.new.conn.ghost_name ≡ tx.old.conn.ghost_name }
    ensures put { HasCleanDisk (state S.Store tx.new.conn.now) → IsTrue (state S.Store tx.old.conn.now).in_transaction
        → OnOk result ((l : ℕ) → id ≡ pos l → Within (state S.Store tx.old.conn.now) (state S.Store tx.new.conn.now) (λ rows. insert rows (kind, l) bytes.now)) }
    ensures kept { HasCleanDisk (state S.Store tx.new.conn.now) → IsTrue (state S.Store tx.old.conn.now).in_transaction
        → KeepsCommit (state S.Store tx.old.conn.now) (state S.Store tx.new.conn.now) }
    ensures survives { Survives (state S.Store tx.old.conn.now) (state S.Store tx.new.conn.now) (λ _. ⊥) }
{
    tx.execute(
        "INSERT OR REPLACE INTO rows (kind, id, bytes) VALUES (?1, ?2, ?3)",
        params![kind, id, bytes],
    )
}

/// Deletes the row of a kind and an id, where there is one.
pub(crate) fn delete_row<S: Alter>(
    tx: &mut Transaction<'_, S>,
    kind: u32,
    id: i64,
) -> Result<usize, Error>
    ensures same_reference { tx.new.conn.ghost_name ≡ tx.old.conn.ghost_name }
    ensures deleted { HasCleanDisk (state S.Store tx.new.conn.now) → IsTrue (state S.Store tx.old.conn.now).in_transaction
        → OnOk result ((l : ℕ) → id ≡ pos l → Within (state S.Store tx.old.conn.now) (state S.Store tx.new.conn.now) (λ rows. remove rows (kind, l))) }
    ensures kept { HasCleanDisk (state S.Store tx.new.conn.now) → IsTrue (state S.Store tx.old.conn.now).in_transaction
        → KeepsCommit (state S.Store tx.old.conn.now) (state S.Store tx.new.conn.now) }
    ensures survives { Survives (state S.Store tx.old.conn.now) (state S.Store tx.new.conn.now) (λ _. ⊥) }
{
    tx.execute(
        "DELETE FROM rows WHERE kind = ?1 AND id = ?2",
        params![kind, id],
    )
}
