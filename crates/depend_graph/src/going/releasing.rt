//! Those who wait in a depend's unmet groups, as it is forgotten.

ghost use Rattle.std.specs.Prelude.{◌≡◌, ◌==◌, ◌-◌, ◌<◌, ◌≤◌, if◌then◌else◌, length};
ghost use Rattle.farm_types.specs.declared.depend.Group.{Group};
ghost use Rattle.farm_types.specs.declared.limits.TheConstants.{MOST_GROUPS};
ghost use Rattle.depend_edges.specs.Places.{AtDepend};
ghost use Rattle.depend_graph.specs.Added.{all_released, released, released_in};

use depend_edges::{Count, Listed};
use farm_types::{Group, Slot};

/// Those who wait in the unmet groups of the depend at a place wait in them no more.
pub(crate) fn release_at(unmet: &mut Vec<u32>, depends: &[Listed], place: u32)
    requires place { place < length depends.now }
    requires counted { AtDepend depends.now place (λ d. length d.counts ≡ length d.groups) }
    ensures { AtDepend depends.now place (λ d. unmet.new.items ≡ released_in unmet.old.items d.groups d.counts) }
{
    release(unmet, &depends[place as usize]);
}

// Those who wait in the depend's unmet groups wait in them no more.
fn release(unmet: &mut Vec<u32>, listed: &Listed)
    requires { length listed.now.counts ≡ length listed.now.groups }
    ensures { unmet.new.items ≡ released_in unmet.old.items listed.now.groups listed.now.counts }
{
    release_all(unmet, listed.groups(), listed.counts());
}

// Those who wait in groups that aren't met wait in one unmet group fewer, each.
fn release_all(unmet: &mut Vec<u32>, groups: &[Group], counts: &[Count])
    requires { length counts.now ≡ length groups.now }
    ensures { unmet.new.items ≡ released_in unmet.old.items groups.now counts.now }
{
    for place in 0..groups.len() {
        release_group(unmet, &groups[place], counts[place].met);
    }
}

// Those who wait in the group wait in one unmet group fewer, if it isn't met.
fn release_group(unmet: &mut Vec<u32>, group: &Group, met: bool)
    ensures { unmet.new.items ≡ (if met then unmet.old.items else all_released unmet.old.items group.now.waiters) }
{
    if !met {
        release_waiters(unmet, group.waiters.as_slice());
    }
}

// Each of those who wait waits in one unmet group fewer.
fn release_waiters(unmet: &mut Vec<u32>, waiters: &[Slot])
    ensures { unmet.new.items ≡ all_released unmet.old.items waiters.now }
{
    for waiter in waiters {
        release_waiter(unmet, waiter);
    }
}

// The frame of the slot waits in one unmet group fewer.
fn release_waiter(unmet: &mut Vec<u32>, waiter: &Slot)
    ensures { unmet.new.items ≡ released unmet.old.items waiter.now }
{
    let place = waiter.0 as usize;
    if place < unmet.len() {
        unmet[place] = unmet[place].saturating_sub(1);
    }
}

/// How many groups are left without those of the depend at a place, which counts where some of them aren't met.
pub(crate) fn left_without(left: u32, depends: &[Listed], place: u32) -> u32
    requires place { place < length depends.now }
    requires within { AtDepend depends.now place (λ d. length d.groups ≤ MOST_GROUPS) }
    ensures { AtDepend depends.now place (λ d. result ≡ (if d.unmet == 0 then left else left - length d.groups)) }
{
    left_without_one(left, &depends[place as usize])
}

// How many groups are left without those of the depend.
fn left_without_one(left: u32, listed: &Listed) -> u32
    requires { length listed.now.groups ≤ MOST_GROUPS }
    ensures { result ≡ (if listed.now.unmet == 0 then left else left - length listed.now.groups) }
{
    if listed.unmet() == 0 {
        left
    } else {
        left.saturating_sub(listed.len() as u32)
    }
}
