//! The checks of depends after the last row.

ghost use Rattle.std.specs.Prelude.{◌≡◌, ◌<◌, ◌||◌, ◌&&◌, ℕ, not, length, IfOk};
ghost use Rattle.std.specs.List.{list_all, list_any};
ghost use Rattle.farm_types.specs.Depends.{are_done, is_done, waits_in};
ghost use Rattle.stored_farm.specs.Ends.{first_flagged, first_stuck, first_wrong, goes_on, hangs, is_marked_in, is_marked_wrongly, is_set, lacks_mark, waits_unmarked, waits_unmet};
ghost use Rattle.stored_farm.specs.Marks.{MarksRise};

use crate::flags::{is_set, no_flags, set_all};
use crate::marks::is_marked;
use farm_types::{DependRow, FrameState, Group, Items, MetRow, Slot, SlotRow};
use std::alloc::{AllocError, Global};

// ---- depends

/// The first depend that is marked wrongly: all its groups are marked, or one isn't that is met by now.
pub(crate) fn first_wrong(
    met: &[MetRow],
    slots: &[SlotRow],
    depends: &[DependRow],
    groups: &[Items<Group>],
) -> Option<(u8, u64)>
    requires { MarksRise met.now }
    ensures { result ≡ first_wrong met.now slots.now depends.now groups.now }
{
    for (depend, own) in depends.iter().zip(groups) {
        if is_marked_wrongly(met, slots, depend, own.as_slice()) {
            return Some((9, u64::from(depend.depend.0)));
        }
    }
    None
}

// Whether the depend of these groups is marked wrongly.
fn is_marked_wrongly(
    met: &[MetRow],
    slots: &[SlotRow],
    depend: &DependRow,
    groups: &[Group],
) -> bool
    requires { MarksRise met.now }
    ensures { result ≡ is_marked_wrongly met.now slots.now depend.now groups.now }
{
    let number = depend.depend.0;
    !depend.met_all
        && (are_marked(met, number, groups) || one_lacks_mark(met, slots, number, groups))
}

// Whether all groups are marked.
fn are_marked(met: &[MetRow], depend: u32, groups: &[Group]) -> bool
    requires { MarksRise met.now }
    ensures { result ≡ list_all (is_marked_in met.now depend) groups.now }
{
    for group in groups {
        if !is_marked(met, depend, group.position) {
            return false;
        }
    }
    true
}

// Whether a group is met by now that isn't marked.
fn one_lacks_mark(met: &[MetRow], slots: &[SlotRow], depend: u32, groups: &[Group]) -> bool
    requires { MarksRise met.now }
    ensures { result ≡ list_any (lacks_mark met.now slots.now depend) groups.now }
{
    for group in groups {
        if lacks_mark(met, slots, depend, group) {
            return true;
        }
    }
    false
}

// Whether the group is met by now and isn't marked.
fn lacks_mark(met: &[MetRow], slots: &[SlotRow], depend: u32, group: &Group) -> bool
    requires { MarksRise met.now }
    ensures { result ≡ lacks_mark met.now slots.now depend group.now }
{
    !is_marked(met, depend, group.position) && are_done(slots, group)
}

// Whether the group's targets are done, or one of them where any is enough.
fn are_done(slots: &[SlotRow], group: &Group) -> bool
    ensures { result ≡ are_done (is_done slots.now) group.now }
{
    if group.any {
        is_one_done(slots, group.targets.as_slice())
    } else {
        are_all_done(slots, group.targets.as_slice())
    }
}

// Whether the frame in one of these slots is done.
fn is_one_done(slots: &[SlotRow], targets: &[Slot]) -> bool
    ensures { result ≡ list_any (is_done slots.now) targets.now }
{
    for target in targets {
        if is_done(slots, *target) {
            return true;
        }
    }
    false
}

// Whether the frame in each of these slots is done.
fn are_all_done(slots: &[SlotRow], targets: &[Slot]) -> bool
    ensures { result ≡ list_all (is_done slots.now) targets.now }
{
    for target in targets {
        if !is_done(slots, *target) {
            return false;
        }
    }
    true
}

// Whether the frame in the slot is done.
fn is_done(slots: &[SlotRow], slot: Slot) -> bool
    ensures { result ≡ is_done slots.now slot }
{
    let Some(row) = slots.get(slot.0 as usize) else {
        return false;
    };
    let Some(frame) = &row.frame else {
        return false;
    };
    frame.state.is_done()
}

// ---- frames

/// The first slot whose frame waits or runs though it is to wait for others, or else the first whose frame is blocked though it isn't.
pub(crate) fn first_stuck(flags: &[bool], slots: &[SlotRow]) -> Option<(u8, u64)>
    ensures { result ≡ first_stuck flags.now slots.now }
{
    let going = first_going(flags, slots);
    if going.is_some() {
        return going;
    }
    first_hanging(flags, slots)
}

/// A flag for each of so many slots: whether its frame waits in a group that isn't marked, of a depend that isn't satisfied.
pub(crate) fn unmet_flags(
    alloc: Global,
    count: usize,
    met: &[MetRow],
    depends: &[DependRow],
    groups: &[Items<Group>],
) -> Result<Vec<bool>, AllocError>
    requires { MarksRise met.now }
    ensures { IfOk result (λ flags. (slot : ℕ) → slot < count → is_set flags.items slot ≡ waits_unmet met.now depends.now groups.now slot) }
{
    let mut flags = no_flags(alloc, count)?;
    for (depend, own) in depends.iter().zip(groups) {
        set_unmarked(&mut flags, met, depend.depend.0, own.as_slice());
    }
    Ok(flags)
}

// Sets the flags of the frames that wait in the groups that aren't marked.
fn set_unmarked(flags: &mut Vec<bool>, met: &[MetRow], depend: u32, groups: &[Group])
    requires { MarksRise met.now }
    ensures flags { (slot : ℕ) → slot < length flags.old.items → is_set flags.new.items slot
        ≡ (is_set flags.old.items slot || waits_unmarked met.now depend groups.now slot) }
    ensures count { length flags.new.items ≡ length flags.old.items }
{
    for group in groups {
        set_waiters(flags, met, depend, group);
    }
}

// Sets the flags of the group's waiting frames, if it isn't marked.
fn set_waiters(flags: &mut Vec<bool>, met: &[MetRow], depend: u32, group: &Group)
    requires { MarksRise met.now }
    ensures flags { (slot : ℕ) → slot < length flags.old.items → is_set flags.new.items slot
        ≡ (is_set flags.old.items slot || (not (is_marked_in met.now depend group.now) && waits_in slot group.now)) }
    ensures count { length flags.new.items ≡ length flags.old.items }
{
    if is_marked(met, depend, group.position) {
        return;
    }
    set_all(flags, group.waiters.as_slice());
}

// The first slot whose frame waits or runs, though its flag is set.
fn first_going(flags: &[bool], slots: &[SlotRow]) -> Option<(u8, u64)>
    ensures { result ≡ first_flagged goes_on flags.now 0 slots.now }
{
    for (place, slot) in slots.iter().enumerate() {
        if goes_on(is_set(flags, place), slot) {
            return Some((8, place as u64));
        }
    }
    None
}

// The first slot whose frame is blocked, though its flag isn't set.
fn first_hanging(flags: &[bool], slots: &[SlotRow]) -> Option<(u8, u64)>
    ensures { result ≡ first_flagged hangs flags.now 0 slots.now }
{
    for (place, slot) in slots.iter().enumerate() {
        if hangs(is_set(flags, place), slot) {
            return Some((8, place as u64));
        }
    }
    None
}

// Whether the slot's frame waits or runs, and is to wait for others.
fn goes_on(waits: bool, slot: &SlotRow) -> bool
    ensures { result ≡ goes_on waits slot.now }
{
    let Some(frame) = &slot.frame else {
        return false;
    };
    matches!(frame.state, FrameState::Waiting | FrameState::Running) && waits
}

// Whether it is blocked, and has nothing to wait for.
fn hangs(waits: bool, slot: &SlotRow) -> bool
    ensures { result ≡ hangs waits slot.now }
{
    let Some(frame) = &slot.frame else {
        return false;
    };
    matches!(frame.state, FrameState::Depend) && !waits
}
