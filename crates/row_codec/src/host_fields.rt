//! The fields of hosts.

ghost use Rattle.std.specs.Prelude.{◌≡◌, OnOk};
ghost use Rattle.cue_json.specs.View.{members_view};
ghost use Rattle.cue_json.specs.Fields.{Gives};
ghost use Rattle.row_codec.specs.RowFields.{host_fields};
ghost use Rattle.row_codec.specs.RowReading.{host_at};
ghost use Rattle.object_writer.specs.Tokens.{added, object_tokens};

use crate::members::write_texts;
use crate::read_fields::{read_text, read_texts, read_u16, read_u32, read_u64};
use cue_json::{FieldFault, Map};
use farm_types::{AllocNo, Cores, HostRow, Kb};
use object_writer::ObjectWriter;
use state_names::{host_word, lock_word, read_word};
use std::alloc::{AllocError, Global};

/// A host, as an object.
#[tactic(auto, unfolding(crate::specs::RowFields::host_fields))]
pub fn write_host(out: &mut ObjectWriter, row: &HostRow) -> Result<(), AllocError>
    ensures { OnOk result (out.new ≡ added out.old (object_tokens (host_fields row.now))) }
{
    out.begin_object()?;
    out.alloc("alloc", row.alloc)?;
    out.number("boot", row.boot)?;
    out.cores("cores", row.cores)?;
    out.whole("heard", row.heard)?;
    out.text("lock", lock_word(row.lock))?;
    out.memory("memory", row.memory)?;
    out.text("name", row.name.as_str())?;
    out.whole("nonce", row.nonce)?;
    out.whole("seq", row.seq)?;
    out.text("state", host_word(row.state))?;
    write_texts(out, "tags", &row.tags)?;
    out.end_object()
}

/// The host that the object's fields say.
#[tactic(auto, unfolding(crate::specs::RowReading::host_at))]
pub fn read_host(alloc: Global, object: &Map) -> Result<HostRow, FieldFault>
    ensures { Gives (λ row. row) result (host_at (members_view object.now.items)) }
{
    let allocation = read_u16(alloc, object, "alloc")?;
    let boot = read_u32(alloc, object, "boot")?;
    let cores = read_u32(alloc, object, "cores")?;
    let heard = read_u64(alloc, object, "heard")?;
    let lock = read_word(alloc, object, "lock")?;
    let memory = read_u64(alloc, object, "memory")?;
    let name = read_text(alloc, object, "name")?;
    let nonce = read_u64(alloc, object, "nonce")?;
    let seq = read_u64(alloc, object, "seq")?;
    let state = read_word(alloc, object, "state")?;
    let tags = read_texts(alloc, object, "tags")?;
    Ok(HostRow {
        name,
        alloc: AllocNo(allocation),
        tags,
        cores: Cores(cores),
        memory: Kb(memory),
        boot,
        nonce,
        seq,
        heard,
        lock,
        state,
    })
}
