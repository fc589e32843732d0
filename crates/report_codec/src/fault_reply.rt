//! The replies to malformed lines and amounts, to boots of amounts that are held, and where no more entries can be numbered, the store failed or memory ran out.

ghost use Rattle.std.specs.Prelude.{◌≡◌, IfOk, OnOk};
ghost use Rattle.farm_lines.specs.Reply.{bad_amount, bad_line, bad_range, bad_store, bad_store_line, entries_full, fault_word, no_memory, section_of, still_held, store_fault, too_long};
ghost use Rattle.object_writer.specs.Tokens.{added, tokens_of};
ghost use Rattle.serde_json.specs.Written.{compact_text};

use farm_types::{Cores, Items, Kb};
use frame_range::RangeFault;
use object_writer::ObjectWriter;
use std::alloc::{AllocError, Global};

/// A line or a field that isn't of its form: `field` is the innermost key, empty for the whole line.
#[tactic(auto, unfolding(farm_lines::specs::Reply::bad_line))]
pub fn write_bad_line(out: &mut ObjectWriter, field: &str) -> Result<(), AllocError>
    ensures { OnOk result (out.new ≡ added out.old (tokens_of (bad_line field.now))) }
{
    out.begin_object()?;
    out.whole("code", 1)?;
    out.text("field", field)?;
    out.truth("ok", false)?;
    out.text("why", "bad_line")?;
    out.end_object()
}

/// A line that is too long.
#[tactic(auto, unfolding(farm_lines::specs::Reply::too_long))]
pub fn write_too_long(out: &mut ObjectWriter) -> Result<(), AllocError>
    ensures { OnOk result (out.new ≡ added out.old (tokens_of too_long)) }
{
    out.begin_object()?;
    out.whole("code", 2)?;
    out.truth("ok", false)?;
    out.text("why", "too_long")?;
    out.end_object()
}

/// A layer's range that has a fault.
#[tactic(auto, unfolding(farm_lines::specs::Reply::bad_range))]
pub fn write_bad_range(
    out: &mut ObjectWriter,
    layer: &str,
    fault: RangeFault,
) -> Result<(), AllocError>
    ensures { OnOk result (out.new ≡ added out.old (tokens_of (bad_range layer.now fault))) }
{
    let word = word_of(fault);
    let section = section_of(fault);
    out.begin_object()?;
    out.whole("code", 7)?;
    out.text("fault", word)?;
    out.text("layer", layer)?;
    out.truth("ok", false)?;
    out.whole("section", section)?;
    out.text("why", "bad_range")?;
    out.end_object()
}

/// An amount outside its limits.
#[tactic(auto, unfolding(farm_lines::specs::Reply::bad_amount))]
pub fn write_bad_amount(out: &mut ObjectWriter, field: &str) -> Result<(), AllocError>
    ensures { OnOk result (out.new ≡ added out.old (tokens_of (bad_amount field.now))) }
{
    out.begin_object()?;
    out.whole("code", 8)?;
    out.text("field", field)?;
    out.truth("ok", false)?;
    out.text("why", "bad_amount")?;
    out.end_object()
}

/// A host's boot with other amounts, while some of the old ones is held: so many cores and so much memory of them are free.
#[tactic(auto, unfolding(farm_lines::specs::Reply::still_held))]
pub fn write_still_held(out: &mut ObjectWriter, cores: Cores, memory: Kb) -> Result<(), AllocError>
    ensures { OnOk result (out.new ≡ added out.old (tokens_of (still_held cores memory))) }
{
    out.begin_object()?;
    out.whole("code", 13)?;
    out.cores("cores", cores)?;
    out.memory("memory", memory)?;
    out.truth("ok", false)?;
    out.text("why", "still_held")?;
    out.end_object()
}

/// As many entries as can be numbered are recorded.
#[tactic(auto, unfolding(farm_lines::specs::Reply::entries_full))]
pub fn write_entries_full(out: &mut ObjectWriter) -> Result<(), AllocError>
    ensures { OnOk result (out.new ≡ added out.old (tokens_of entries_full)) }
{
    out.begin_object()?;
    out.whole("code", 18)?;
    out.whole("limit", u64::MAX)?;
    out.truth("ok", false)?;
    out.text("what", "entries")?;
    out.text("why", "full")?;
    out.end_object()
}

/// The bytes of the line that tells a row of the store at fault, with its newline.
pub fn write_bad_store(alloc: Global, kind: u8, id: u64) -> Result<Items<u8>, AllocError>
    ensures { IfOk result (λ line. line ≡ bad_store_line kind id) }
{
    let mut line = bad_store_bytes(alloc, kind, id)?;
    line.push(b'\n')?;
    Ok(line)
}

// A row of the store at fault, as compact JSON.
#[tactic(auto, using(object_writer::proofs::Printed::data_printed))]
fn bad_store_bytes(alloc: Global, kind: u8, id: u64) -> Result<Items<u8>, AllocError>
    ensures { IfOk result (λ bytes. bytes ≡ compact_text (bad_store kind id)) }
{
    let mut out = ObjectWriter::new(alloc)?;
    write_bad_row(&mut out, u64::from(kind), id)?;
    Ok(out.into_bytes())
}

// A row of the store at fault.
#[tactic(auto, unfolding(farm_lines::specs::Reply::bad_store))]
fn write_bad_row(out: &mut ObjectWriter, kind: u64, id: u64) -> Result<(), AllocError>
    ensures { OnOk result (out.new ≡ added out.old (tokens_of (bad_store kind id))) }
{
    out.begin_object()?;
    out.whole("id", id)?;
    out.whole("kind", kind)?;
    out.truth("ok", false)?;
    out.text("why", "bad_store")?;
    out.end_object()
}

/// A fault of the store.
#[tactic(auto, unfolding(farm_lines::specs::Reply::store_fault))]
pub fn write_store_fault(out: &mut ObjectWriter) -> Result<(), AllocError>
    ensures { OnOk result (out.new ≡ added out.old (tokens_of store_fault)) }
{
    out.begin_object()?;
    out.whole("code", 15)?;
    out.truth("ok", false)?;
    out.text("why", "store")?;
    out.end_object()
}

/// Out of memory.
#[tactic(auto, unfolding(farm_lines::specs::Reply::no_memory))]
pub fn write_no_memory(out: &mut ObjectWriter) -> Result<(), AllocError>
    ensures { OnOk result (out.new ≡ added out.old (tokens_of no_memory)) }
{
    out.begin_object()?;
    out.whole("code", 16)?;
    out.truth("ok", false)?;
    out.text("why", "memory")?;
    out.end_object()
}

// The word for the fault: none where memory ran out, which is no fault of a range.
fn word_of(fault: RangeFault) -> &'static str
    ensures { result.now ≡ fault_word fault }
{
    match fault {
        RangeFault::Syntax { .. } => "syntax",
        RangeFault::OutOfRange { .. } => "out_of_range",
        RangeFault::ZeroStep { .. } => "zero_step",
        RangeFault::WrongWay { .. } => "wrong_way",
        RangeFault::Empty { .. } => "empty",
        RangeFault::TooMany { .. } => "too_many",
        RangeFault::NoMemory => "",
    }
}

// The section that has the fault, from 1.
fn section_of(fault: RangeFault) -> u64
    ensures { result ≡ section_of fault }
{
    match fault {
        RangeFault::Syntax { section } => section as u64,
        RangeFault::OutOfRange { section } => section as u64,
        RangeFault::ZeroStep { section } => section as u64,
        RangeFault::WrongWay { section } => section as u64,
        RangeFault::Empty { section } => section as u64,
        RangeFault::TooMany { section } => section as u64,
        RangeFault::NoMemory => 0,
    }
}
