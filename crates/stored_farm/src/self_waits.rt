//! Frames that wait for themselves.

ghost use Rattle.std.specs.Prelude.{◌≡◌, ◌≤◌, ◌<◌, ℕ, false, is_some, IfOk};
ghost use Rattle.std.specs.List.{list_any};
ghost use Rattle.farm_types.specs.DependActs.{waits_for_itself};
ghost use Rattle.stored_farm.specs.Ends.{is_set};
ghost use Rattle.stored_farm.specs.SelfWaits.{is_among};

use crate::flags::{is_set, no_flags, set_all};
use farm_types::{Group, Slot};
use std::alloc::{AllocError, Global};

/// Whether a waiting frame is among the targets of its own group.
pub(crate) fn waits_for_itself(alloc: Global, groups: &[Group]) -> Result<bool, AllocError>
    ensures { IfOk result (λ waits. waits ≡ is_some (waits_for_itself groups.now)) }
{
    for group in groups {
        if has_own_waiter(alloc, group)? {
            return Ok(true);
        }
    }
    Ok(false)
}

// Whether a waiting frame is among the group's targets. Of more than one of each the targets are flagged first.
fn has_own_waiter(alloc: Global, group: &Group) -> Result<bool, AllocError>
    ensures { IfOk result (λ has. has ≡ list_any (is_among group.now.targets) group.now.waiters) }
{
    let waiters = group.waiters.as_slice();
    let targets = group.targets.as_slice();
    if waiters.len() < 2 || targets.len() < 2 {
        return Ok(are_among(targets, waiters));
    }
    let mut flags = no_flags(alloc, behind(targets))?;
    set_all(&mut flags, targets);
    Ok(is_one_set(flags.as_slice(), waiters))
}

// Whether one of the waiters is among the targets.
fn are_among(targets: &[Slot], waiters: &[Slot]) -> bool
    ensures { result ≡ list_any (is_among targets.now) waiters.now }
{
    for waiter in waiters {
        if is_among(targets, *waiter) {
            return true;
        }
    }
    false
}

// Whether the slot is among these.
fn is_among(slots: &[Slot], slot: Slot) -> bool
    ensures { result ≡ is_among slots.now slot }
{
    slots.iter().any(|other| *other == slot)
}

// Whether one of the slots is flagged.
fn is_one_set(flags: &[bool], slots: &[Slot]) -> bool
    ensures { result ≡ list_any (is_set flags.now) slots.now }
{
    for slot in slots {
        if is_set(flags, slot.0 as usize) {
            return true;
        }
    }
    false
}

// A number from which on none of these is.
fn behind(slots: &[Slot]) -> usize
    ensures { (slot : ℕ) → result ≤ slot → is_among slots.now slot ≡ false }
{
    let mut end = 0;
    for slot in slots {
        end = past(end, *slot);
    }
    end
}

// The number, or the one past the slot.
fn past(end: usize, slot: Slot) -> usize
    ensures low { end ≤ result }
    ensures past { slot < result }
{
    let place = slot.0 as usize;
    if place < end { end } else { place + 1 }
}
