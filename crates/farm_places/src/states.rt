//! What the state of a frame allows.

ghost use Rattle.std.specs.Prelude.{◌≡◌, Bool, slice_get};
ghost use Rattle.farm_types.specs.declared.refusal.Refusal.TheVariants.{VersionSpent, WrongState};
ghost use Rattle.farm_types.specs.declared.states.FrameState.{FrameState};
ghost use Rattle.farm_types.specs.DependActs.{or_else};
ghost use Rattle.farm_types.specs.Names.{frame_name};
ghost use Rattle.farm_types.specs.Operators.{may_eat, may_kill, may_retry, state_refusal, version_refusal};
ghost use Rattle.farm_types.specs.Faults.{IsRefusal, Refuses};
ghost use Rattle.farm_places.specs.Frames.{refusal_in};

use command_text::frame_name;
use farm_books::Books;
use farm_types::{FarmFault, FramePlace, FrameState, LAST_VERSION, Refusal, Slot};
use std::alloc::Global;

/// Refuses to kill a frame that is done or dead.
pub fn check_kill(books: &Books, slot: Slot) -> Result<(), FarmFault>
    ensures { Refuses (state_refusal may_kill (slice_get books.now.farm.slots slot)) result }
{
    let Some(state) = state_at(books, slot) else {
        return Ok(());
    };
    if may_kill(state) {
        return Ok(());
    }
    Err(wrong_state(state))
}

/// Refuses to eat a frame that is done.
pub fn check_eat(books: &Books, slot: Slot) -> Result<(), FarmFault>
    ensures { Refuses (state_refusal may_eat (slice_get books.now.farm.slots slot)) result }
{
    let Some(state) = state_at(books, slot) else {
        return Ok(());
    };
    if may_eat(state) {
        return Ok(());
    }
    Err(wrong_state(state))
}

/// Refuses to retry a frame that waits, or whose slot is at its last version. The place is the frame's, for its name.
pub fn check_retry(
    alloc: Global,
    books: &Books,
    place: &FramePlace,
    slot: Slot,
) -> Result<(), FarmFault>
    ensures { Refuses (or_else (state_refusal may_retry (slice_get books.now.farm.slots slot))
        (version_refusal (frame_name place.now.frame place.now.layer) (slice_get books.now.farm.slots slot))) result }
{
    check_state_to_retry(books, slot)?;
    check_version(alloc, books, place, slot)
}

// Refuses to retry a frame that waits.
fn check_state_to_retry(books: &Books, slot: Slot) -> Result<(), FarmFault>
    ensures { Refuses (state_refusal may_retry (slice_get books.now.farm.slots slot)) result }
{
    let Some(state) = state_at(books, slot) else {
        return Ok(());
    };
    if may_retry(state) {
        return Ok(());
    }
    Err(wrong_state(state))
}

// Refuses another attempt at a frame whose slot is at its last version.
fn check_version(
    alloc: Global,
    books: &Books,
    place: &FramePlace,
    slot: Slot,
) -> Result<(), FarmFault>
    ensures { Refuses (version_refusal (frame_name place.now.frame place.now.layer) (slice_get books.now.farm.slots slot)) result }
{
    let Some(row) = books.slot(slot) else {
        return Ok(());
    };
    if row.version.0 < LAST_VERSION {
        return Ok(());
    }
    Err(version_spent(alloc, place))
}

// That the frame has no version left.
fn version_spent(alloc: Global, place: &FramePlace) -> FarmFault
    ensures { IsRefusal (VersionSpent (frame_name place.now.frame place.now.layer)) result }
{
    match frame_name(alloc, place.frame, place.layer.as_str()) {
        Ok(frame) => FarmFault::Refused {
            why: Refusal::VersionSpent { frame },
        },
        Err(_) => FarmFault::NoMemory,
    }
}

// That the frame's state doesn't allow what is asked.
fn wrong_state(state: FrameState) -> FarmFault
    ensures { IsRefusal (WrongState state) result }
{
    FarmFault::Refused {
        why: Refusal::WrongState { state },
    }
}

// The state of the frame in a slot, where there is one.
fn state_at(books: &Books, slot: Slot) -> Option<FrameState>
    ensures { (may : FrameState → Bool) → state_refusal may (slice_get books.now.farm.slots slot) ≡ refusal_in may result }
{
    let Some(row) = books.slot(slot) else {
        return None;
    };
    let Some(frame) = &row.frame else {
        return None;
    };
    Some(frame.state)
}

// A frame that isn't done may be killed, and one that is dead is.
fn may_kill(state: FrameState) -> bool
    ensures { result ≡ may_kill state }
{
    !state.is_done() && !matches!(state, FrameState::Dead)
}

// A frame that isn't done may be eaten.
fn may_eat(state: FrameState) -> bool
    ensures { result ≡ may_eat state }
{
    !state.is_done()
}

// A frame that doesn't wait may be retried.
fn may_retry(state: FrameState) -> bool
    ensures { result ≡ may_retry state }
{
    !matches!(
        state,
        FrameState::Waiting | FrameState::Setup | FrameState::Depend
    )
}
