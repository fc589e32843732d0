//! Rows in a hash table: what needs memory is done before anything changes.
ghost use Rattle.std.specs.Prelude.{◌≡◌, ◌<◌, ◌≤◌, ◌+◌, length, IfOk, OnOk};
ghost use Rattle.std.specs.List.Sorted.{IsStrictlySortedBy};
ghost use Rattle.std.specs.FinMap.{insert, remove};
ghost use Rattle.indexmap.specs.IndexMap.{keys, spare};
ghost use Rattle.farm_keeper.specs.Rows.{Lists, delete_all, key_cmp, key_of, put_all};
ghost use Rattle.farm_keeper.specs.Table.{rows_in};

use crate::row::Row;
use farm_types::Items;
use indexmap::IndexMap;
use std::alloc::{AllocError, Global};

/// The bytes of each row by its kind and id, in no order.
pub(crate) type RowTable = IndexMap<(u8, u64), Items<u8>>;

/// Puts rows, in turn. It takes no memory.
pub(crate) fn put_rows(table: &mut RowTable, rows: Vec<Row>)
    requires { length rows.items ≤ spare table.old }
    ensures { rows_in table.new.entries ≡ put_all rows.items (rows_in table.old.entries) }
{
    for row in rows {
        put_row(table, row);
    }
}

fn put_row(table: &mut RowTable, row: Row)
    requires { 0 < spare table.old }
    ensures put { rows_in table.new.entries ≡ insert (rows_in table.old.entries) (key_of row) row.bytes }
    ensures room { spare table.old ≤ spare table.new + 1 }
{
    let Row { kind, id, bytes } = row;
    let put: Result<_, _> = table.insert((kind, id), bytes);
    put.unwrap();
}

/// Deletes rows.
pub(crate) fn delete_rows(table: &mut RowTable, keys: &[(u8, u64)])
    ensures { rows_in table.new.entries ≡ delete_all keys.now (rows_in table.old.entries) }
{
    for key in keys {
        delete_row(table, *key);
    }
}

fn delete_row(table: &mut RowTable, key: (u8, u64))
    ensures { rows_in table.new.entries ≡ remove (rows_in table.old.entries) key }
{
    table.swap_remove(&key);
}

/// The rows, by kind and then by id. The table has them in this order then.
pub(crate) fn list_rows(alloc: Global, table: &mut RowTable) -> Result<Items<Row>, AllocError>
    ensures same { rows_in table.new.entries ≡ rows_in table.old.entries }
    ensures listed { IfOk result (λ list. Lists list (rows_in table.old.entries)) }
{
    sort_rows(table)?;
    copy_rows(alloc, table)
}

fn sort_rows(table: &mut RowTable) -> Result<(), AllocError>
    ensures same { rows_in table.new.entries ≡ rows_in table.old.entries }
    ensures sorted { OnOk result (IsStrictlySortedBy key_cmp (keys table.new)) }
{
    table.sort_keys()
}

fn copy_rows(alloc: Global, table: &RowTable) -> Result<Items<Row>, AllocError>
    requires { IsStrictlySortedBy key_cmp (keys table.now) }
    ensures { IfOk result (λ list. Lists list (rows_in table.now.entries)) }
{
    let mut rows = Items::new(alloc);
    for (key, bytes) in table.iter() {
        rows.push(Row {
            kind: key.0,
            id: key.1,
            bytes: bytes.copy(alloc)?,
        })?;
    }
    Ok(rows)
}
