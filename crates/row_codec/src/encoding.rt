//! The bytes of a row.

ghost use Rattle.std.specs.Prelude.{◌≡◌, IfOk, OnOk};
ghost use Rattle.row_codec.specs.RowFields.{row_fields, row_text, text_in};
ghost use Rattle.object_writer.specs.Tokens.{added, object_tokens};

use crate::depend_fields::{write_depend, write_met};
use crate::farm_fields::{write_alloc, write_head, write_show, write_sub};
use crate::frame_fields::write_frame;
use crate::host_fields::write_host;
use crate::job_fields::write_job;
use crate::layer_fields::{write_layer, write_limit_row};
use farm_rows::{FarmRow, ROW_FORMAT};
use farm_types::Items;
use object_writer::ObjectWriter;
use std::alloc::{AllocError, Global};
use std::mem;

/// The row as compact JSON, its keys in byte order, in the format in which rows are written. It is put together in the room, whose memory is kept from
/// row to row, and what it holds goes.
#[tactic(auto, using(crate::proofs::Printed::row_printed))]
pub fn encode(alloc: Global, row: &FarmRow, room: &mut Vec<u8>) -> Result<Items<u8>, AllocError>
    ensures { IfOk result (λ bytes. bytes ≡ row_text row.now) }
{
    let mut out = ObjectWriter::over(mem::replace(room, Vec::new(alloc)));
    write_row(&mut out, ROW_FORMAT, row)?;
    let bytes = Vec::from_slice(alloc, out.bytes())?;
    *room = out.into_room();
    Ok(Items::from_vec(bytes))
}

/// The row as compact JSON, in that format.
#[tactic(auto, using(crate::proofs::Printed::row_printed))]
pub(crate) fn encode_in(alloc: Global, format: u64, row: &FarmRow) -> Result<Items<u8>, AllocError>
    ensures { IfOk result (λ bytes. bytes ≡ text_in format row.now) }
{
    let mut out = ObjectWriter::new(alloc)?;
    write_row(&mut out, format, row)?;
    Ok(out.into_bytes())
}

// The row as an object. Amounts of cores are in hundredths of a core.
fn write_row(out: &mut ObjectWriter, format: u64, row: &FarmRow) -> Result<(), AllocError>
    ensures { OnOk result (out.new ≡ added out.old (object_tokens (row_fields format row.now))) }
{
    match row {
        FarmRow::Head(row) => write_head(out, row),
        FarmRow::Show { row, .. } => write_show(out, row),
        FarmRow::Alloc { row, .. } => write_alloc(out, row),
        FarmRow::Sub(row) => write_sub(out, row),
        FarmRow::Host { row, .. } => write_host(out, row),
        FarmRow::Job(row) => write_job(out, row),
        FarmRow::Layer(row) => write_layer(out, format, row),
        FarmRow::Frame(row) => write_frame(out, row),
        FarmRow::Depend(row) => write_depend(out, row),
        FarmRow::Met(_) => write_met(out),
        FarmRow::Limit { row, .. } => write_limit_row(out, row),
    }
}
