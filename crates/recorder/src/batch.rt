//! Changes of rows as a batch of bytes.

ghost use Rattle.std.specs.Prelude.{◌≡◌, IfOk, OnOk};
ghost use Rattle.store_law.specs.Stored.{batch_of, key_pair, stored_row};
ghost use Rattle.recorder.specs.Batches.{added};

use farm_keeper::{Batch, Row};
use farm_rows::{FarmRow, RowChange, RowKey, group_id, layer_id};
use farm_types::Items;
use row_codec::encode;
use std::alloc::{AllocError, Global};

/// The changes as a batch of a keeper. Each row is put together in the room, whose memory is kept.
pub(crate) fn batch_of(
    alloc: Global,
    changes: &[RowChange],
    room: &mut Vec<u8>,
) -> Result<Batch, AllocError>
    ensures { IfOk result (λ batch. batch ≡ batch_of changes.now) }
{
    let mut batch = Batch {
        puts: Items::from_vec(Vec::with_capacity(alloc, changes.len())?),
        deletes: Items::new(alloc),
    };
    for change in changes {
        add(alloc, &mut batch, change, room)?;
    }
    Ok(batch)
}

// Adds a change at the batch's end.
fn add(
    alloc: Global,
    batch: &mut Batch,
    change: &RowChange,
    room: &mut Vec<u8>,
) -> Result<(), AllocError>
    ensures { OnOk result (batch.new ≡ added batch.old change.now) }
{
    match change {
        RowChange::Put(row) => batch.puts.push(stored_row(alloc, row, room)?),
        RowChange::Delete { key } => batch.deletes.push(key_pair(*key)),
    }
}

// The row's bytes under its kind and its id.
fn stored_row(alloc: Global, row: &FarmRow, room: &mut Vec<u8>) -> Result<Row, AllocError>
    ensures { IfOk result (λ stored. stored ≡ stored_row row.now) }
{
    Ok(Row {
        kind: row.kind(),
        id: row.id(),
        bytes: encode(alloc, row, room)?,
    })
}

// The kind and the id of a key.
fn key_pair(key: RowKey) -> (u8, u64)
    ensures { result ≡ key_pair key }
{
    match key {
        RowKey::Head => (1, 0),
        RowKey::Show { show } => (2, u64::from(show.0)),
        RowKey::Alloc { alloc } => (3, u64::from(alloc.0)),
        RowKey::Sub { sub } => (4, u64::from(sub.0)),
        RowKey::Host { host } => (5, u64::from(host.0)),
        RowKey::Job { job } => (6, u64::from(job.0)),
        RowKey::Layer { job, place } => (7, layer_id(job.0, place)),
        RowKey::Frame { slot } => (8, u64::from(slot.0)),
        RowKey::Depend { depend } => (9, u64::from(depend.0)),
        RowKey::Met { depend, position } => (10, group_id(depend.0, position)),
        RowKey::Limit { limit } => (11, u64::from(limit.0)),
    }
}
