//! The rows of the table, in order.
ghost use Rattle.std.specs.Prelude.{◌≡◌, ◌∷◌, false, map, IsTrue, IfOk, OnOk, IfErr, OnErr, All};
ghost use Rattle.std.specs.Ordering.{is_lt};
ghost use Rattle.sqlite.specs.Held.{state};
ghost use Rattle.sqlite.specs.State.{HasCleanDisk, Survives};
ghost use Rattle.sqlite_value.specs.declared.value.Value.TheVariants.{Null};
ghost use Rattle.farm_keeper.specs.Keeping.{Keeps};
ghost use Rattle.farm_keeper.specs.Rows.{Lists, Rows, entry_of, key_cmp, key_of};
ghost use Rattle.keeper_sqlite.specs.Told.{HasNumbers, Holds, IsReading, IsRising, entry_in, rises_from};

use farm_keeper::Row;
use farm_types::Items;
use sqlite::{Alter, Connection, Error, ErrorCode};
use std::alloc::Global;

pub(crate) fn select<S: Alter>(conn: &mut Connection<S>) -> Result<Vec<sqlite::Row>, Error>
    requires { conn.old.in_transaction ≡ false }
    ensures mode { conn.new.in_transaction ≡ false }
    ensures read { HasCleanDisk (state S.Store conn.new) → IfOk result (λ rows. IsReading (state S.Store conn.old) rows.items) }
    ensures held { Keeps (Holds (state S.Store conn.old)) (Holds (state S.Store conn.new)) }
    ensures survives { Survives (state S.Store conn.old) (state S.Store conn.new) (λ _. ⊥) }
{
    let mut tx = conn.transaction();
    let rows = tx.query_all("SELECT kind, id, bytes FROM rows ORDER BY kind, id", &[])?;
    tx.rollback();
    Ok(rows)
}

/// An error where the kind or the id of a row is none that can be read.
fn test_row(row: &sqlite::Row) -> Result<(), Error>
    ensures { OnOk result (HasNumbers row.now) }
{
    let kind: u32 = row.get(0)?;
    let _id: u64 = row.get(1)?;
    match u8::try_from(kind) {
        Ok(_) => Ok(()),
        Err(_) => Err(Error::IntegralValueOutOfRange(0)),
    }
}

/// An error where the kind or the id of one of the rows is none that can be read.
pub(crate) fn test_rows(rows: &[sqlite::Row]) -> Result<(), Error>
    ensures { OnOk result (All HasNumbers rows.now) }
{
    for row in rows {
        test_row(row)?;
    }
    Ok(())
}

fn read_row(row: &sqlite::Row) -> Result<Row, Error>
    ensures { IfOk result (λ read. entry_of read ≡ entry_in (Null ∷ row.now)) }
{
    let kind: u32 = row.get(0)?;
    let Ok(kind) = u8::try_from(kind) else {
        return Err(Error::IntegralValueOutOfRange(0));
    };
    let id: u64 = row.get(1)?;
    let bytes: Vec<u8> = row.get(2)?;
    Ok(Row {
        kind,
        id,
        bytes: Items::from_vec(bytes),
    })
}

fn read_rows(alloc: Global, rows: &[sqlite::Row]) -> Result<Items<Row>, Error>
    ensures { IfOk result (λ list. map entry_of list ≡ map (λ row. entry_in (Null ∷ row)) rows.now) }
{
    let mut list = Items::new(alloc);
    for row in rows {
        list.push(read_row(row)?)?;
    }
    Ok(list)
}

/// Whether a row comes after this kind and id.
fn is_after(kind: u8, id: u64, row: &Row) -> bool
    ensures { result ≡ is_lt (key_cmp (kind, id) (key_of row.now)) }
{
    kind < row.kind || (kind == row.kind && id < row.id)
}

/// Whether the kinds and ids rise from these on.
fn rises_after(kind: u8, id: u64, rows: &[Row]) -> bool
    ensures { result ≡ rises_from (kind, id) (map key_of rows.now) }
{
    let mut kind_before = kind;
    let mut id_before = id;
    for row in rows {
        if !is_after(kind_before, id_before, row) {
            return false;
        }
        kind_before = row.kind;
        id_before = row.id;
    }
    true
}

fn is_rising(rows: &[Row]) -> bool
    ensures { IsTrue result → IsRising rows.now }
{
    let Some((first, rest)) = rows.split_first() else {
        return true;
    };
    rises_after(first.kind, first.id, rest)
}

/// The rows, by kind and then by id. Rows in another order are an error.
pub(crate) fn load_rows<S: Alter>(
    alloc: Global,
    conn: &mut Connection<S>,
) -> Result<Items<Row>, Error>
    requires { conn.old.in_transaction ≡ false }
    ensures mode { conn.new.in_transaction ≡ false }
    ensures listed { IfOk result (λ list. HasCleanDisk (state S.Store conn.new) → (rows : Rows) → Holds (state S.Store conn.old) rows → Lists list rows) }
    ensures held { Keeps (Holds (state S.Store conn.old)) (Holds (state S.Store conn.new)) }
    ensures survives { Survives (state S.Store conn.old) (state S.Store conn.new) (λ _. ⊥) }
{
    let shown = select(conn)?;
    let list = read_rows(alloc, shown.as_slice())?;
    if !is_rising(list.as_slice()) {
        return Err(Error::SqliteFailure(ErrorCode::DatabaseCorrupt));
    }
    Ok(list)
}
