//! The counts of a depend's groups, as it is added.

ghost use Rattle.std.specs.Prelude.{◌≡◌, ◌<◌, ◌^◌, ℕ, Some, count_by, if◌then◌else◌, length, map, slice_get};
ghost use Rattle.farm_types.specs.declared.depend.Group.{Group};
ghost use Rattle.depend_edges.specs.Listed.{is_unmet};
ghost use Rattle.depend_graph.specs.Added.{all_held, count_for, held, held_in, is_lacking};

use crate::graph::is_flagged_at;
use depend_edges::{Count, is_enough};
use farm_types::{Group, Slot};

/// Each group is counted, and met at once where it lacks no target.
pub(crate) fn count_all(counts: &mut Vec<Count>, groups: &[Group], done: &[bool])
    requires counts { length counts.old.items ≡ length groups.now }
    requires targets { (k : ℕ) (g : Group) → slice_get groups.now k ≡ Some g → length g.targets < 2 ^ 32 }
    ensures { counts.new.items ≡ map (count_for done.now) groups.now }
{
    for place in 0..groups.len() {
        counts[place] = counted(&groups[place], done);
    }
}

// How many of the group's targets aren't done, and whether it is met at once.
fn counted(group: &Group, done: &[bool]) -> Count
    requires { length group.now.targets < 2 ^ 32 }
    ensures { result ≡ count_for done.now group.now }
{
    let undone = lacking(done, group.targets.as_slice());
    Count {
        undone,
        met: is_enough(group, undone),
    }
}

// How many of the slots aren't done.
fn lacking(done: &[bool], slots: &[Slot]) -> u32
    requires { length slots.now < 2 ^ 32 }
    ensures { result ≡ count_by (is_lacking done.now) slots.now }
{
    let mut count = 0;
    for slot in slots {
        if is_lacking_at(done, slot) {
            count += 1;
        }
    }
    count
}

// Whether the slot's frame isn't done.
fn is_lacking_at(done: &[bool], slot: &Slot) -> bool
    ensures { result ≡ is_lacking done.now slot.now }
{
    !is_flagged_at(done, *slot)
}

/// How many groups aren't met.
pub(crate) fn unmet_among(counts: &[Count]) -> u32
    requires { length counts.now < 2 ^ 32 }
    ensures { result ≡ count_by is_unmet counts.now }
{
    let mut count = 0;
    for one in counts {
        if !one.met {
            count += 1;
        }
    }
    count
}

/// Those who wait in groups that aren't met wait in one unmet group more, each.
pub(crate) fn hold_all(unmet: &mut Vec<u32>, groups: &[Group], counts: &[Count])
    requires { length counts.now ≡ length groups.now }
    ensures { unmet.new.items ≡ held_in unmet.old.items groups.now counts.now }
{
    for place in 0..groups.len() {
        hold_group(unmet, &groups[place], counts[place].met);
    }
}

// Those who wait in the group wait in one unmet group more, if it isn't met.
fn hold_group(unmet: &mut Vec<u32>, group: &Group, met: bool)
    ensures { unmet.new.items ≡ (if met then unmet.old.items else all_held unmet.old.items group.now.waiters) }
{
    if !met {
        hold_waiters(unmet, group.waiters.as_slice());
    }
}

// Each of those who wait waits in one unmet group more.
fn hold_waiters(unmet: &mut Vec<u32>, waiters: &[Slot])
    ensures { unmet.new.items ≡ all_held unmet.old.items waiters.now }
{
    for waiter in waiters {
        hold(unmet, waiter);
    }
}

// The frame of the slot waits in one unmet group more.
fn hold(unmet: &mut Vec<u32>, waiter: &Slot)
    ensures { unmet.new.items ≡ held unmet.old.items waiter.now }
{
    let place = waiter.0 as usize;
    if place < unmet.len() {
        unmet[place] = unmet[place].saturating_add(1);
    }
}
