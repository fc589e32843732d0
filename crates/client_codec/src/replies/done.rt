//! Replies to what is done.

ghost use Rattle.cue_json.specs.View.{members_view};
ghost use Rattle.cue_json.specs.Fields.{Gives};
ghost use Rattle.farm_lines.specs.ReplyLines.{boot_reply, depend_reply, done_reply, drop_reply, ended_reply, limit_reply, ok_at, sub_reply, submit_reply, tick_reply};

use crate::replies::list::read_list;
use crate::replies::report::read_report;
use cue_json::{FieldFault, Map};
use farm_lines::{MOST_BOOKED, Reply, read_name, read_whole};
use farm_types::{
    Cores, DependNo, LAST_BOOT, LAST_DEPEND, MOST_BURST, MOST_FRAMES, MOST_HOSTS, MOST_RUNNING,
    SLOT_LIMIT,
};
use std::alloc::Global;

/// The reply whose `ok` is true that the object is: a key that no other has tells which, and there is none where nothing is told.
pub fn read_ok(alloc: Global, object: &Map) -> Result<Reply, FieldFault>
    ensures { Gives (λ reply. reply) result (ok_at (members_view object.now.items)) }
{
    if cue_json::has(object, "acks") {
        read_report(alloc, object)
    } else if cue_json::has(object, "rows") {
        read_list(alloc, object)
    } else if cue_json::has(object, "booked") {
        read_sub(alloc, object)
    } else if cue_json::has(object, "most") {
        read_limit(alloc, object)
    } else if cue_json::has(object, "nonce") {
        read_boot(alloc, object)
    } else if cue_json::has(object, "down") {
        read_tick(alloc, object)
    } else if cue_json::has(object, "frames") {
        read_submitted(alloc, object)
    } else if cue_json::has(object, "unmet") {
        read_depend(alloc, object)
    } else if cue_json::has(object, "opened") {
        read_dropped(alloc, object)
    } else if cue_json::has(object, "ended") {
        read_ended(alloc, object)
    } else {
        read_done(alloc, object)
    }
}

#[tactic(auto, unfolding(farm_lines::specs::ReplyLines::done_reply))]
fn read_done(alloc: Global, object: &Map) -> Result<Reply, FieldFault>
    ensures { Gives (λ reply. reply) result (done_reply (members_view object.now.items)) }
{
    cue_json::no_others(alloc, object, &["ok"])?;
    Ok(Reply::Done)
}

#[tactic(auto, unfolding(farm_lines::specs::ReplyLines::sub_reply))]
fn read_sub(alloc: Global, object: &Map) -> Result<Reply, FieldFault>
    ensures { Gives (λ reply. reply) result (sub_reply (members_view object.now.items)) }
{
    let booked = read_whole(alloc, object, "booked", 0, MOST_BOOKED)?;
    let burst = read_whole(alloc, object, "burst", 0, MOST_BURST)?;
    let size = read_whole(alloc, object, "size", 0, MOST_BURST)?;
    cue_json::no_others(alloc, object, &["booked", "burst", "ok", "size"])?;
    Ok(Reply::Sub {
        booked: Cores(booked),
        burst: Cores(burst),
        size: Cores(size),
    })
}

#[tactic(auto, unfolding(farm_lines::specs::ReplyLines::limit_reply))]
fn read_limit(alloc: Global, object: &Map) -> Result<Reply, FieldFault>
    ensures { Gives (λ reply. reply) result (limit_reply (members_view object.now.items)) }
{
    let most = read_whole(alloc, object, "most", 0, MOST_RUNNING)?;
    let running = read_whole(alloc, object, "running", 0, SLOT_LIMIT)?;
    cue_json::no_others(alloc, object, &["most", "ok", "running"])?;
    Ok(Reply::Limit { most, running })
}

#[tactic(auto, unfolding(farm_lines::specs::ReplyLines::boot_reply))]
fn read_boot(alloc: Global, object: &Map) -> Result<Reply, FieldFault>
    ensures { Gives (λ reply. reply) result (boot_reply (members_view object.now.items)) }
{
    let boot = read_whole(alloc, object, "boot", 1, LAST_BOOT)?;
    let nonce = cue_json::whole(alloc, object, "nonce", 0, u64::MAX)?;
    cue_json::no_others(alloc, object, &["boot", "nonce", "ok"])?;
    Ok(Reply::Boot { boot, nonce })
}

#[tactic(auto, unfolding(farm_lines::specs::ReplyLines::tick_reply))]
fn read_tick(alloc: Global, object: &Map) -> Result<Reply, FieldFault>
    ensures { Gives (λ reply. reply) result (tick_reply (members_view object.now.items)) }
{
    let down = read_whole(alloc, object, "down", 0, MOST_HOSTS)?;
    let lost = read_whole(alloc, object, "lost", 0, SLOT_LIMIT)?;
    cue_json::no_others(alloc, object, &["down", "lost", "ok"])?;
    Ok(Reply::Tick { down, lost })
}

#[tactic(auto, unfolding(farm_lines::specs::ReplyLines::submit_reply))]
fn read_submitted(alloc: Global, object: &Map) -> Result<Reply, FieldFault>
    ensures { Gives (λ reply. reply) result (submit_reply (members_view object.now.items)) }
{
    let frames = read_whole(alloc, object, "frames", 1, MOST_FRAMES)?;
    let job = read_name(alloc, object, "job")?;
    cue_json::no_others(alloc, object, &["frames", "job", "ok"])?;
    Ok(Reply::Submitted { frames, job })
}

#[tactic(auto, unfolding(farm_lines::specs::ReplyLines::depend_reply))]
fn read_depend(alloc: Global, object: &Map) -> Result<Reply, FieldFault>
    ensures { Gives (λ reply. reply) result (depend_reply (members_view object.now.items)) }
{
    let depend = read_whole(alloc, object, "depend", 1, LAST_DEPEND)?;
    let unmet = read_whole(alloc, object, "unmet", 0, SLOT_LIMIT)?;
    cue_json::no_others(alloc, object, &["depend", "ok", "unmet"])?;
    Ok(Reply::Depend {
        depend: DependNo(depend),
        unmet,
    })
}

#[tactic(auto, unfolding(farm_lines::specs::ReplyLines::drop_reply))]
fn read_dropped(alloc: Global, object: &Map) -> Result<Reply, FieldFault>
    ensures { Gives (λ reply. reply) result (drop_reply (members_view object.now.items)) }
{
    let opened = read_whole(alloc, object, "opened", 0, SLOT_LIMIT)?;
    cue_json::no_others(alloc, object, &["ok", "opened"])?;
    Ok(Reply::Dropped { opened })
}

#[tactic(auto, unfolding(farm_lines::specs::ReplyLines::ended_reply))]
fn read_ended(alloc: Global, object: &Map) -> Result<Reply, FieldFault>
    ensures { Gives (λ reply. reply) result (ended_reply (members_view object.now.items)) }
{
    let ended = read_whole(alloc, object, "ended", 0, SLOT_LIMIT)?;
    cue_json::no_others(alloc, object, &["ended", "ok"])?;
    Ok(Reply::Ended { ended })
}
