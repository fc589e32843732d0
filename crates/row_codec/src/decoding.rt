//! The row that bytes are.

ghost use Rattle.std.specs.Prelude.{◌≡◌, Option, ◌/◌, ◌%◌, ◌^◌, Some, None, nat_lt, if◌then◌else◌, IfOk};
ghost use Rattle.cue_json.specs.View.{members_view};
ghost use Rattle.farm_rows.specs.declared.farm_row.FarmRow.{FarmRow};
ghost use Rattle.farm_rows.specs.declared.farm_row.FarmRow.TheVariants as row;
ghost use Rattle.farm_rows.specs.Recovery.{IsFormat};
ghost use Rattle.row_codec.specs.RowLaws.{IsDecoded, IsExact, Reads};
ghost use Rattle.row_codec.specs.RowReading.{alloc_at, below, depend_at, frame_at, head_at, host_at, is_spelled, job_at, layer_at, limit_row_at, read_as, row_from, row_in, show_at, spelled, sub_at};

use crate::depend_fields::read_depend;
use crate::encoding::encode_in;
use crate::farm_fields::{read_alloc, read_head, read_show, read_sub};
use crate::fault::{ReadFault, RowFault};
use crate::frame_fields::read_frame;
use crate::host_fields::read_host;
use crate::job_fields::read_job;
use crate::layer_fields::{read_layer, read_limit_row};
use cue_json::Map;
use farm_rows::{FarmRow, GROUP_IDS, LAYER_IDS};
use farm_types::{AllocNo, DependNo, HostNo, JobNo, LimitNo, MetRow, ShowNo, Slot, SubNo};
use json::Scratch;
use std::alloc::{AllocError, Global};

/// The row of that kind and id whose bytes are these in the format, which is 1 or 2, or `BadBytes` where no row has them. Texts with escapes are read into the
/// scratch.
pub fn decode(
    alloc: Global,
    format: u64,
    kind: u8,
    id: u64,
    bytes: &[u8],
    scratch: &mut Scratch,
) -> Result<FarmRow, RowFault>
    requires { IsFormat format }
    ensures gives { IsDecoded kind id result (row_from format kind id bytes.now) }
    // So the row has these bytes, and no row has them where none is read.
    ensures exact { IsExact format kind id bytes.now result }
{
    named(kind, id, read_row(alloc, format, kind, id, bytes, scratch))
}

// What was read, with the kind and the id in its fault.
fn named(kind: u8, id: u64, read: Result<FarmRow, ReadFault>) -> Result<FarmRow, RowFault>
    ensures { (found : Option FarmRow) → Reads read found → IsDecoded kind id result found }
{
    match read {
        Ok(row) => Ok(row),
        Err(ReadFault::NoRow) => Err(RowFault::BadBytes { kind, id }),
        Err(ReadFault::NoMemory) => Err(RowFault::NoMemory),
    }
}

// The row of that kind and id whose bytes are these.
#[tactic(auto, unfolding(crate::specs::RowReading::row_from))]
fn read_row(
    alloc: Global,
    format: u64,
    kind: u8,
    id: u64,
    bytes: &[u8],
    scratch: &mut Scratch,
) -> Result<FarmRow, ReadFault>
    ensures { Reads result (row_from format kind id bytes.now) }
{
    let object = cue_json::object_of(alloc, bytes, scratch)?;
    let row = read_fields(alloc, format, kind, id, &object)?;
    checked(alloc, format, kind, id, row, bytes)
}

// The row where it is of that kind and id and spelled so in the format.
fn checked(
    alloc: Global,
    format: u64,
    kind: u8,
    id: u64,
    row: FarmRow,
    bytes: &[u8],
) -> Result<FarmRow, ReadFault>
    ensures { Reads result (spelled format kind id bytes.now row) }
{
    if is_spelled(alloc, format, kind, id, &row, bytes)? {
        Ok(row)
    } else {
        Err(ReadFault::NoRow)
    }
}

// Whether the row is of that kind and id and spelled so.
fn is_spelled(
    alloc: Global,
    format: u64,
    kind: u8,
    id: u64,
    row: &FarmRow,
    bytes: &[u8],
) -> Result<bool, AllocError>
    ensures { IfOk result (λ is. is ≡ is_spelled format kind id bytes.now row.now) }
{
    let text = encode_in(alloc, format, row)?;
    Ok(row.kind() == kind && row.id() == id && text.as_slice() == bytes)
}

// The row of that kind and id, as its fields say.
fn read_fields(
    alloc: Global,
    format: u64,
    kind: u8,
    id: u64,
    object: &Map,
) -> Result<FarmRow, ReadFault>
    ensures { Reads result (row_in format kind id (members_view object.now.items)) }
{
    match kind {
        1 => head(alloc, object),
        2 => show(alloc, id, object),
        3 => allocation(alloc, id, object),
        4 => sub(alloc, id, object),
        5 => host(alloc, id, object),
        6 => job(alloc, id, object),
        7 => layer(alloc, format, id, object),
        8 => frame(alloc, id, object),
        9 => depend(alloc, id, object),
        10 => met(id),
        11 => limit(alloc, id, object),
        _ => Err(ReadFault::NoRow),
    }
}

fn head(alloc: Global, object: &Map) -> Result<FarmRow, ReadFault>
    ensures { Reads result (read_as row.Head (head_at (members_view object.now.items))) }
{
    Ok(FarmRow::Head(read_head(alloc, object)?))
}

fn show(alloc: Global, id: u64, object: &Map) -> Result<FarmRow, ReadFault>
    ensures { Reads result (below (2 ^ 16) id (read_as (row.Show id) (show_at (members_view object.now.items)))) }
{
    let show = ShowNo(small(id)?);
    let row = read_show(alloc, object)?;
    Ok(FarmRow::Show { show, row })
}

fn allocation(alloc: Global, id: u64, object: &Map) -> Result<FarmRow, ReadFault>
    ensures { Reads result (below (2 ^ 16) id (read_as (row.Alloc id) (alloc_at (members_view object.now.items)))) }
{
    let number = AllocNo(small(id)?);
    let row = read_alloc(alloc, object)?;
    Ok(FarmRow::Alloc { alloc: number, row })
}

fn sub(alloc: Global, id: u64, object: &Map) -> Result<FarmRow, ReadFault>
    ensures { Reads result (below (2 ^ 16) id (read_as row.Sub (sub_at id (members_view object.now.items)))) }
{
    let sub = SubNo(small(id)?);
    Ok(FarmRow::Sub(read_sub(alloc, sub, object)?))
}

fn host(alloc: Global, id: u64, object: &Map) -> Result<FarmRow, ReadFault>
    ensures { Reads result (below (2 ^ 16) id (read_as (row.Host id) (host_at (members_view object.now.items)))) }
{
    let host = HostNo(small(id)?);
    let row = read_host(alloc, object)?;
    Ok(FarmRow::Host { host, row })
}

fn job(alloc: Global, id: u64, object: &Map) -> Result<FarmRow, ReadFault>
    ensures { Reads result (below (2 ^ 32) id (read_as row.Job (job_at id (members_view object.now.items)))) }
{
    let job = JobNo(medium(id)?);
    Ok(FarmRow::Job(read_job(alloc, job, object)?))
}

fn layer(alloc: Global, format: u64, id: u64, object: &Map) -> Result<FarmRow, ReadFault>
    ensures { Reads result (below (2 ^ 32) (id / LAYER_IDS) (read_as row.Layer
        (layer_at format (id / LAYER_IDS) (id % LAYER_IDS) (members_view object.now.items)))) }
{
    let job = JobNo(medium(id / LAYER_IDS)?);
    let place = (id % LAYER_IDS) as u32;
    Ok(FarmRow::Layer(read_layer(alloc, format, job, place, object)?))
}

fn frame(alloc: Global, id: u64, object: &Map) -> Result<FarmRow, ReadFault>
    ensures { Reads result (below (2 ^ 32) id (read_as row.Frame (frame_at id (members_view object.now.items)))) }
{
    let slot = Slot(medium(id)?);
    Ok(FarmRow::Frame(read_frame(alloc, slot, object)?))
}

fn depend(alloc: Global, id: u64, object: &Map) -> Result<FarmRow, ReadFault>
    ensures { Reads result (below (2 ^ 32) id (read_as row.Depend (depend_at id (members_view object.now.items)))) }
{
    let depend = DependNo(medium(id)?);
    Ok(FarmRow::Depend(read_depend(alloc, depend, object)?))
}

fn met(id: u64) -> Result<FarmRow, ReadFault>
    ensures { Reads result (below (2 ^ 32) (id / GROUP_IDS) (Some (row.Met (record { depend = id / GROUP_IDS; position = id % GROUP_IDS })))) }
{
    let depend = DependNo(medium(id / GROUP_IDS)?);
    let position = (id % GROUP_IDS) as u32;
    Ok(FarmRow::Met(MetRow { depend, position }))
}

fn limit(alloc: Global, id: u64, object: &Map) -> Result<FarmRow, ReadFault>
    ensures { Reads result (below (2 ^ 8) id (read_as (row.Limit id) (limit_row_at (members_view object.now.items)))) }
{
    let limit = LimitNo(tiny(id)?);
    let row = read_limit_row(alloc, object)?;
    Ok(FarmRow::Limit { limit, row })
}

// A number of 8 bits, one of 16, and one of 32.
fn tiny(number: u64) -> Result<u8, ReadFault>
    ensures { Reads result (if nat_lt number (2 ^ 8) then Some number else None) }
{
    u8::try_from(number).map_err(|_| ReadFault::NoRow)
}

fn small(number: u64) -> Result<u16, ReadFault>
    ensures { Reads result (if nat_lt number (2 ^ 16) then Some number else None) }
{
    u16::try_from(number).map_err(|_| ReadFault::NoRow)
}

fn medium(number: u64) -> Result<u32, ReadFault>
    ensures { Reads result (if nat_lt number (2 ^ 32) then Some number else None) }
{
    u32::try_from(number).map_err(|_| ReadFault::NoRow)
}
