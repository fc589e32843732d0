//! The farm of a store's rows.

ghost use Rattle.std.specs.Prelude.{◌≡◌, [], Some, true};
ghost use Rattle.farm_rows.specs.Recovery.{IsFormat};
ghost use Rattle.recovery.specs.Recovered.{IsJoined, IsRead, IsRecovered, IsAccepted, given_key, may_follow, read_id, recovered, recovered_from, row_given};

use crate::draft::FarmDraft;
use crate::fault::{DraftFault, RecoverFault};
use farm_core::Farm;
use farm_keeper::Row;
use farm_rows::FarmRow;
use json::Scratch;
use row_codec::{RowFault, decode};
use std::alloc::Global;

/// The farm of a store's rows, and the format of the rows.
#[derive(Drop)]
pub struct Recovered {
    pub farm: Farm,
    pub format: u64,
}

/// The farm of these rows, which are taken as they are given, and their format, or the first row at fault. Of each in turn: one that doesn't come after
/// the one before it by its kind, then its id, or that is the first one and isn't the farm's own, breaks the farm; then one whose bytes are no row in the
/// format that the farm's own row says is bad; then one that doesn't fit those before it, or is of the farm's own kind and another id, breaks the farm.
/// After the last row one may break the farm that all are there of. No rows at all are the empty farm, in the format in which rows are written.
pub fn recover(alloc: Global, rows: &[Row]) -> Result<Recovered, RecoverFault>
    ensures { IsRecovered (recovered rows.now) result }
{
    let mut draft = FarmDraft::make(alloc)?;
    let mut scratch = Scratch::new(alloc);
    for row in rows {
        if let Err(fault) = take(alloc, &mut draft, row, &mut scratch) {
            return Err(fault);
        }
    }
    finish(alloc, draft)
}

// Takes the next row.
fn take(
    alloc: Global,
    draft: &mut FarmDraft,
    row: &Row,
    scratch: &mut Scratch,
) -> Result<(), RecoverFault>
    ensures { IsAccepted draft.old row.now draft.new result }
{
    let kind = row.kind;
    let id = row.id;
    if may_follow(draft.last(), (kind, id)) {
        return take_next(alloc, draft, row, scratch);
    }
    Err(RecoverFault::BreaksFarm { kind, id })
}

// Takes a row that is in order.
fn take_next(
    alloc: Global,
    draft: &mut FarmDraft,
    row: &Row,
    scratch: &mut Scratch,
) -> Result<(), RecoverFault>
    requires { may_follow draft.old.last (given_key row.now) ≡ true }
    ensures { IsAccepted draft.old row.now draft.new result }
{
    match read(alloc, draft.format(), row, scratch) {
        Ok(found) => take_found(alloc, draft, row, found),
        Err(fault) => Err(fault),
    }
}

// Takes the row that the bytes are, where it is of the id that was given.
fn take_found(
    alloc: Global,
    draft: &mut FarmDraft,
    row: &Row,
    found: FarmRow,
) -> Result<(), RecoverFault>
    requires next { may_follow draft.old.last (given_key row.now) ≡ true }
    requires found { row_given draft.old.format row.now ≡ Some found }
    ensures { IsAccepted draft.old row.now draft.new result }
{
    row_codec::rows_are_read_as_spelled();
    let kind = row.kind;
    let id = row.id;
    if found.id() == id {
        return add(alloc, draft, found);
    }
    Err(RecoverFault::BreaksFarm { kind, id })
}

// Whether the row is the farm's own, where it is the first, or comes after the last one.
fn may_follow(last: Option<(u8, u64)>, key: (u8, u64)) -> bool
    ensures { result ≡ may_follow last key }
{
    match last {
        None => key.0 == 1 && key.1 == 0,
        Some(last) => last.0 < key.0 || (last.0 == key.0 && last.1 < key.1),
    }
}

// The row that the bytes are in the format.
fn read(
    alloc: Global,
    format: u64,
    row: &Row,
    scratch: &mut Scratch,
) -> Result<FarmRow, RecoverFault>
    requires { IsFormat format }
    ensures { IsRead format row.now result }
{
    let kind = row.kind;
    let id = row.id;
    match decode(
        alloc,
        format,
        kind,
        read_id(kind, id),
        row.bytes.as_slice(),
        scratch,
    ) {
        Ok(row) => Ok(row),
        Err(RowFault::BadBytes { .. }) => Err(RecoverFault::BadBytes { kind, id }),
        Err(RowFault::NoMemory) => Err(RecoverFault::NoMemory),
    }
}

// By which id the row is read: one of the farm's own kind as the farm's own.
fn read_id(kind: u8, id: u64) -> u64
    ensures { result ≡ read_id kind id }
{
    if kind == 1 { 0 } else { id }
}

// Adds a row to the draft.
fn add(alloc: Global, draft: &mut FarmDraft, row: FarmRow) -> Result<(), RecoverFault>
    ensures { IsJoined draft.old row draft.new result }
{
    match draft.add(alloc, row) {
        Ok(()) => Ok(()),
        Err(DraftFault::Breaks { kind, id }) => Err(RecoverFault::BreaksFarm { kind, id }),
        Err(DraftFault::NoMemory) => Err(RecoverFault::NoMemory),
    }
}

// The farm of the draft's rows, and their format.
fn finish(alloc: Global, draft: FarmDraft) -> Result<Recovered, RecoverFault>
    ensures { IsRecovered (recovered_from draft []) result }
{
    let format = draft.format();
    match draft.finish(alloc) {
        Ok(farm) => Ok(Recovered { farm, format }),
        Err(DraftFault::Breaks { kind, id }) => Err(RecoverFault::BreaksFarm { kind, id }),
        Err(DraftFault::NoMemory) => Err(RecoverFault::NoMemory),
    }
}
