//! Whether rows that own texts are the same, with no copy.

ghost use Rattle.std.specs.Prelude.{◌≡◌, ◌↔◌, IsTrue};

use crate::frame_row::{FrameRow, StoredFrame};
use farm_types::{
    AllocRow, DependEnd, DependRow, HostRow, JobRow, LayerRow, LimitRow, ShowRow, Text,
};

/// Whether the shows are the same.
pub fn is_same_show(one: &ShowRow, other: &ShowRow) -> bool
    ensures { IsTrue result ↔ (one.now ≡ other.now) }
{
    one.name.is(other.name.as_str())
}

/// Whether the allocations are the same.
pub fn is_same_alloc(one: &AllocRow, other: &AllocRow) -> bool
    ensures { IsTrue result ↔ (one.now ≡ other.now) }
{
    one.facility.is(other.facility.as_str()) && one.tag.is(other.tag.as_str())
}

/// Whether the limits are the same.
pub fn is_same_limit(one: &LimitRow, other: &LimitRow) -> bool
    ensures { IsTrue result ↔ (one.now ≡ other.now) }
{
    one.name.is(other.name.as_str()) && one.most == other.most
}

/// Whether the hosts are the same.
pub fn is_same_host(one: &HostRow, other: &HostRow) -> bool
    ensures { IsTrue result ↔ (one.now ≡ other.now) }
{
    one.name.is(other.name.as_str())
        && one.alloc == other.alloc
        && are_same_texts(one.tags.as_slice(), other.tags.as_slice())
        && one.cores == other.cores
        && one.memory == other.memory
        && one.boot == other.boot
        && one.nonce == other.nonce
        && one.seq == other.seq
        && one.heard == other.heard
        && one.lock == other.lock
        && one.state == other.state
}

/// Whether the jobs are the same.
pub fn is_same_job(one: &JobRow, other: &JobRow) -> bool
    ensures { IsTrue result ↔ (one.now ≡ other.now) }
{
    one.job == other.job
        && one.name.is(other.name.as_str())
        && one.show == other.show
        && one.facility.is(other.facility.as_str())
        && one.shot.is(other.shot.as_str())
        && one.user.is(other.user.as_str())
        && one.priority == other.priority
        && one.max_retries == other.max_retries
        && one.auto_eat == other.auto_eat
        && one.paused == other.paused
        && one.state == other.state
        && one.frames == other.frames
        && one.finish == other.finish
        && one.eaten == other.eaten
        && one.succeeded == other.succeeded
}

/// Whether the layers are the same.
pub fn is_same_layer(one: &LayerRow, other: &LayerRow) -> bool
    ensures { IsTrue result ↔ (one.now ≡ other.now) }
{
    one.job == other.job
        && one.place == other.place
        && one.name.is(other.name.as_str())
        && one.range.is(other.range.as_str())
        && one.command.is(other.command.as_str())
        && one.cores == other.cores
        && one.memory == other.memory
        && are_same_texts(one.tags.as_slice(), other.tags.as_slice())
        && one.limit == other.limit
}

/// Whether the depends are the same.
pub fn is_same_depend(one: &DependRow, other: &DependRow) -> bool
    ensures { IsTrue result ↔ (one.now ≡ other.now) }
{
    one.depend == other.depend
        && one.kind == other.kind
        && one.any == other.any
        && one.met_all == other.met_all
        && is_same_end(&one.waiter, &other.waiter)
        && is_same_end(&one.target, &other.target)
}

/// Whether the rows of a slot are the same.
pub fn is_same_frame(one: &FrameRow, other: &FrameRow) -> bool
    ensures { IsTrue result ↔ (one.now ≡ other.now) }
{
    one.slot == other.slot && one.version == other.version && is_same_held(&one.frame, &other.frame)
}

// Whether the frames in a slot are the same, or there are none.
fn is_same_held(one: &Option<StoredFrame>, other: &Option<StoredFrame>) -> bool
    ensures { IsTrue result ↔ (one.now ≡ other.now) }
{
    match (one, other) {
        (None, None) => true,
        (Some(one), Some(other)) => is_same_stored(one, other),
        _ => false,
    }
}

// Whether the stored frames are the same.
fn is_same_stored(one: &StoredFrame, other: &StoredFrame) -> bool
    ensures { IsTrue result ↔ (one.now ≡ other.now) }
{
    one.job == other.job
        && one.layer == other.layer
        && one.number == other.number
        && one.retries == other.retries
        && one.state == other.state
}

// Whether the ends are the same.
fn is_same_end(one: &DependEnd, other: &DependEnd) -> bool
    ensures { IsTrue result ↔ (one.now ≡ other.now) }
{
    one.job == other.job && is_same_name(&one.layer, &other.layer) && one.frame == other.frame
}

// Whether the names are the same, or there are none.
fn is_same_name(one: &Option<Text>, other: &Option<Text>) -> bool
    ensures { IsTrue result ↔ (one.now ≡ other.now) }
{
    match (one, other) {
        (None, None) => true,
        (Some(one), Some(other)) => one.is(other.as_str()),
        _ => false,
    }
}

// Whether the texts are the same, one by one.
fn are_same_texts(one: &[Text], other: &[Text]) -> bool
    ensures { IsTrue result ↔ (one.now ≡ other.now) }
{
    if one.len() != other.len() {
        return false;
    }
    for place in 0..one.len() {
        if !one[place].is(other[place].as_str()) {
            return false;
        }
    }
    true
}
