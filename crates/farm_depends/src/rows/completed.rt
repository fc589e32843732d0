//! The frames that changes of slots complete.

ghost use Rattle.std.specs.Prelude.{◌≡◌, IfOk};
ghost use Rattle.farm_depends.specs.Completing.{completes, is_blocked_row, is_done_row, is_eaten, newly_done, newly_eaten};

use farm_draft::SlotChange;
use farm_types::{FrameState, Items, Slot, SlotRow};
use std::alloc::{AllocError, Global};

/// The slots among these whose frames are done and weren't.
pub(crate) fn newly_done(alloc: Global, rows: &[SlotChange]) -> Result<Items<Slot>, AllocError>
    ensures { IfOk result (λ done. done ≡ newly_done rows.now) }
{
    let mut done = Items::new(alloc);
    for change in rows {
        if !completes(change) {
            continue;
        }
        done.push(change.slot)?;
    }
    Ok(done)
}

/// The slots among these whose frames are done and were blocked.
pub(crate) fn newly_eaten(alloc: Global, rows: &[SlotChange]) -> Result<Items<Slot>, AllocError>
    ensures { IfOk result (λ eaten. eaten ≡ newly_eaten rows.now) }
{
    let mut eaten = Items::new(alloc);
    for change in rows {
        if !is_eaten(change) {
            continue;
        }
        eaten.push(change.slot)?;
    }
    Ok(eaten)
}

/// Whether the frame in the slot is done and wasn't.
pub fn completes(change: &SlotChange) -> bool
    ensures { result ≡ completes change.now }
{
    is_done(&change.row) && !is_done(&change.was)
}

// Whether the frame in the slot is done and was blocked.
fn is_eaten(change: &SlotChange) -> bool
    ensures { result ≡ is_eaten change.now }
{
    is_done(&change.row) && is_blocked(&change.was)
}

/// Whether the frame in the row is done.
pub(crate) fn is_done(row: &SlotRow) -> bool
    ensures { result ≡ is_done_row row.now }
{
    match &row.frame {
        None => false,
        Some(frame) => frame.state.is_done(),
    }
}

/// Whether the frame in the row is blocked.
pub(crate) fn is_blocked(row: &SlotRow) -> bool
    ensures { result ≡ is_blocked_row row.now }
{
    match &row.frame {
        None => false,
        Some(frame) => matches!(frame.state, FrameState::Depend),
    }
}
