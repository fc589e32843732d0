//! What a line is refused for, and faults that are none of its own.

ghost use Rattle.std.specs.Prelude.{◌≡◌};
ghost use Rattle.cue_json.specs.View.{members_view};
ghost use Rattle.cue_json.specs.Fields.{Gives};
ghost use Rattle.state_names.specs.Words.{word_at};
ghost use Rattle.farm_lines.specs.declared.reply.Reply.TheVariants as reply;
ghost use Rattle.farm_lines.specs.ReplyLines.{bad_range_at, plain_refusal, range_fault_of};

use crate::replies::refusal::read_code;
use cue_json::{FieldFault, Map};
use farm_lines::{Reply, read_name, read_whole};
use farm_types::MOST_RANGE;
use frame_range::RangeFault;
use state_names::named;
use std::alloc::Global;

/// A line that is too long.
pub fn read_too_long(alloc: Global, object: &Map) -> Result<Reply, FieldFault>
    ensures { Gives (λ reply. reply) result (plain_refusal 2 reply.TooLong (members_view object.now.items)) }
{
    read_code(alloc, object, 2)?;
    cue_json::no_others(alloc, object, &["code", "ok", "why"])?;
    Ok(Reply::TooLong)
}

/// A layer's range with a fault.
#[tactic(auto, unfolding(farm_lines::specs::ReplyLines::bad_range_at))]
pub fn read_bad_range(alloc: Global, object: &Map) -> Result<Reply, FieldFault>
    ensures { Gives (λ reply. reply) result (bad_range_at (members_view object.now.items)) }
{
    read_code(alloc, object, 7)?;
    let layer = read_name(alloc, object, "layer")?;
    let section = read_whole(alloc, object, "section", 1, MOST_RANGE)?;
    let fault = read_fault(alloc, object, "fault", section as usize)?;
    cue_json::no_others(
        alloc,
        object,
        &["code", "fault", "layer", "ok", "section", "why"],
    )?;
    Ok(Reply::BadRange { layer, fault })
}

// The fault of that section of a range.
fn read_fault(
    alloc: Global,
    object: &Map,
    field: &str,
    section: usize,
) -> Result<RangeFault, FieldFault>
    ensures { Gives (λ fault. fault) result (word_at (range_fault_of section) field.now (members_view object.now.items)) }
{
    let word = cue_json::text(alloc, object, field)?;
    named(alloc, field, range_fault_of(section, word))
}

fn range_fault_of(section: usize, word: &str) -> Option<RangeFault>
    ensures { result ≡ range_fault_of section word.now }
{
    match word {
        "syntax" => Some(RangeFault::Syntax { section }),
        "out_of_range" => Some(RangeFault::OutOfRange { section }),
        "zero_step" => Some(RangeFault::ZeroStep { section }),
        "wrong_way" => Some(RangeFault::WrongWay { section }),
        "empty" => Some(RangeFault::Empty { section }),
        "too_many" => Some(RangeFault::TooMany { section }),
        _ => None,
    }
}

/// A fault of the store.
pub fn read_store(alloc: Global, object: &Map) -> Result<Reply, FieldFault>
    ensures { Gives (λ reply. reply) result (plain_refusal 15 reply.Store (members_view object.now.items)) }
{
    read_code(alloc, object, 15)?;
    cue_json::no_others(alloc, object, &["code", "ok", "why"])?;
    Ok(Reply::Store)
}

/// That memory ran out.
pub fn read_no_memory(alloc: Global, object: &Map) -> Result<Reply, FieldFault>
    ensures { Gives (λ reply. reply) result (plain_refusal 16 reply.NoMemory (members_view object.now.items)) }
{
    read_code(alloc, object, 16)?;
    cue_json::no_others(alloc, object, &["code", "ok", "why"])?;
    Ok(Reply::NoMemory)
}
