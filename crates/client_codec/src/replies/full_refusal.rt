//! Counts that are at their limit.

ghost use Rattle.std.specs.Prelude.{◌≡◌};
ghost use Rattle.cue_json.specs.View.{members_view};
ghost use Rattle.cue_json.specs.Fields.{Gives};
ghost use Rattle.farm_lines.specs.ReplyLines.{entries_full_at, full_at, full_of, full_reply, limit_of};

use crate::replies::refusal::read_code;
use cue_json::{FieldFault, Map};
use farm_lines::Reply;
use farm_types::{
    Counted, LAST_BOOT, LAST_DEPEND, LAST_JOB, MOST_ALLOCS, MOST_DEPENDS, MOST_GROUPS, MOST_HOSTS,
    MOST_LIMITS, MOST_SHOWS, Refusal,
};
use state_names::{Word, named};
use std::alloc::Global;

/// A count that is at its limit: of things that are kept, or of entries.
#[tactic(auto, unfolding(farm_lines::specs::ReplyLines::full_reply))]
pub fn read_full(alloc: Global, object: &Map) -> Result<Reply, FieldFault>
    ensures { Gives (λ reply. reply) result (full_reply (members_view object.now.items)) }
{
    read_code(alloc, object, 18)?;
    let what = cue_json::text(alloc, object, "what")?;
    read_full_of(alloc, object, what)
}

// The count that the word names.
fn read_full_of(alloc: Global, object: &Map, what: &str) -> Result<Reply, FieldFault>
    ensures { Gives (λ reply. reply) result (full_of (members_view object.now.items) what.now) }
{
    if what == "entries" {
        return read_entries_full(alloc, object);
    }
    let counted = named(alloc, "what", Counted::of_word(what))?;
    read_counted(alloc, object, counted)
}

#[tactic(auto, unfolding(farm_lines::specs::ReplyLines::entries_full_at))]
fn read_entries_full(alloc: Global, object: &Map) -> Result<Reply, FieldFault>
    ensures { Gives (λ reply. reply) result (entries_full_at (members_view object.now.items)) }
{
    cue_json::whole(alloc, object, "limit", u64::MAX, u64::MAX)?;
    cue_json::no_others(alloc, object, &["code", "limit", "ok", "what", "why"])?;
    Ok(Reply::EntriesFull)
}

#[tactic(auto, unfolding(farm_lines::specs::ReplyLines::full_at))]
fn read_counted(alloc: Global, object: &Map, what: Counted) -> Result<Reply, FieldFault>
    ensures { Gives (λ reply. reply) result (full_at (members_view object.now.items) what) }
{
    let most = limit_of(what);
    let limit = cue_json::whole(alloc, object, "limit", most, most)?;
    cue_json::no_others(alloc, object, &["code", "limit", "ok", "what", "why"])?;
    Ok(Reply::Refused(Refusal::Full { limit, what }))
}

// How many there are at most of what is counted.
fn limit_of(what: Counted) -> u64
    ensures { result ≡ limit_of what }
{
    match what {
        Counted::Shows => u64::from(MOST_SHOWS),
        Counted::Allocs => u64::from(MOST_ALLOCS),
        Counted::Limits => u64::from(MOST_LIMITS),
        Counted::Hosts => u64::from(MOST_HOSTS),
        Counted::Boots => u64::from(LAST_BOOT),
        Counted::Jobs => u64::from(LAST_JOB),
        Counted::Depends => u64::from(MOST_DEPENDS),
        Counted::Groups => u64::from(MOST_GROUPS),
        Counted::DependNumbers => u64::from(LAST_DEPEND),
    }
}
