//! What the farm refuses.

ghost use Rattle.std.specs.Prelude.{◌≡◌, codes};
ghost use Rattle.cue_json.specs.View.{members_view};
ghost use Rattle.cue_json.specs.Fields.{Gives, whole_at};
ghost use Rattle.farm_types.specs.declared.limits.TheConstants.{LAST_BOOT, SLOT_LIMIT};
ghost use Rattle.farm_types.specs.declared.refusal.Refusal.TheVariants.{WrongBoot, Stale, FarmFull};
ghost use Rattle.state_names.specs.Words.{word_at};
ghost use Rattle.farm_lines.specs.declared.reply.Reply.TheVariants as reply;
ghost use Rattle.farm_lines.specs.ReplyLines.{boot_refusal_keys, free_keys, keyed_refusal, last_keys, seq_at, state_keys, still_held_at, wrong_state_of};

use crate::replies::refusal::read_code;
use cue_json::{FieldFault, Map};
use farm_lines::{Reply, read_whole};
use farm_types::{Cores, FrameState, Kb, LAST_BOOT, MOST_CORES, MOST_MEMORY, Refusal, SLOT_LIMIT};
use state_names::{Word, named};
use std::alloc::Global;

/// The host's boot number is another.
pub fn read_wrong_boot(alloc: Global, object: &Map) -> Result<Reply, FieldFault>
    ensures { Gives (λ reply. reply) result (keyed_refusal 5 boot_refusal_keys (whole_at (codes "boot") 1 LAST_BOOT)
        (λ boot. reply.Refused (WrongBoot boot)) (members_view object.now.items)) }
{
    read_code(alloc, object, 5)?;
    let boot = read_whole(alloc, object, "boot", 1, LAST_BOOT)?;
    cue_json::no_others(alloc, object, &["boot", "code", "ok", "why"])?;
    Ok(Reply::Refused(Refusal::WrongBoot { boot }))
}

/// The report's number isn't above the last one.
pub fn read_stale(alloc: Global, object: &Map) -> Result<Reply, FieldFault>
    ensures { Gives (λ reply. reply) result (keyed_refusal 6 last_keys seq_at (λ last. reply.Refused (Stale last)) (members_view object.now.items)) }
{
    read_code(alloc, object, 6)?;
    let last = cue_json::whole(alloc, object, "last", 1, u64::MAX)?;
    cue_json::no_others(alloc, object, &["code", "last", "ok", "why"])?;
    Ok(Reply::Refused(Refusal::Stale { last }))
}

/// The job has more frames than there are free slots.
pub fn read_farm_full(alloc: Global, object: &Map) -> Result<Reply, FieldFault>
    ensures { Gives (λ reply. reply) result (keyed_refusal 9 free_keys (whole_at (codes "free") 0 SLOT_LIMIT)
        (λ free. reply.Refused (FarmFull free)) (members_view object.now.items)) }
{
    read_code(alloc, object, 9)?;
    let free = read_whole(alloc, object, "free", 0, SLOT_LIMIT)?;
    cue_json::no_others(alloc, object, &["code", "free", "ok", "why"])?;
    Ok(Reply::Refused(Refusal::FarmFull { free }))
}

/// The state of the frame, or of the depend, doesn't allow what is asked.
pub fn read_wrong_state(alloc: Global, object: &Map) -> Result<Reply, FieldFault>
    ensures { Gives (λ reply. reply) result (keyed_refusal 11 state_keys (word_at wrong_state_of (codes "state"))
        (λ refused. refused) (members_view object.now.items)) }
{
    read_code(alloc, object, 11)?;
    let refused = read_state_named(alloc, object, "state")?;
    cue_json::no_others(alloc, object, &["code", "ok", "state", "why"])?;
    Ok(refused)
}

/// A host with so much of its old cores and memory free boots with others.
#[tactic(auto, unfolding(farm_lines::specs::ReplyLines::still_held_at))]
pub fn read_still_held(alloc: Global, object: &Map) -> Result<Reply, FieldFault>
    ensures { Gives (λ reply. reply) result (still_held_at (members_view object.now.items)) }
{
    read_code(alloc, object, 13)?;
    let cores = read_whole(alloc, object, "cores", 0, MOST_CORES)?;
    let memory = cue_json::whole(alloc, object, "memory", 0, MOST_MEMORY)?;
    cue_json::no_others(alloc, object, &["code", "cores", "memory", "ok", "why"])?;
    Ok(Reply::StillHeld {
        cores: Cores(cores),
        memory: Kb(memory),
    })
}

// The refusal for the state that the word of the field names.
fn read_state_named(alloc: Global, object: &Map, field: &str) -> Result<Reply, FieldFault>
    ensures { Gives (λ refused. refused) result (word_at wrong_state_of field.now (members_view object.now.items)) }
{
    let word = cue_json::text(alloc, object, field)?;
    named(alloc, field, wrong_state_of(word))
}

fn wrong_state_of(word: &str) -> Option<Reply>
    ensures { result ≡ wrong_state_of word.now }
{
    if word == "SATISFIED" {
        return Some(Reply::Refused(Refusal::Satisfied));
    }
    match FrameState::of_word(word) {
        Some(state) => Some(Reply::Refused(Refusal::WrongState { state })),
        None => None,
    }
}
