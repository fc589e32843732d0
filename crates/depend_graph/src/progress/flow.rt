//! Groups are met, and those who wait in them are freed.

ghost use Rattle.std.specs.Prelude.{◌≡◌, ◌+◌, ◌-◌, ◌^◌, ◌<◌, ◌≤◌, true, Some, count_by, if◌then◌else◌, length, slice_get};
ghost use Rattle.std.specs.Vec.{vec_capacity};
ghost use Rattle.farm_types.specs.declared.limits.TheConstants.{MOST_DEPENDS, MOST_GROUPS, SLOT_LIMIT};
ghost use Rattle.farm_types.specs.Farm.{changed_at};
ghost use Rattle.depend_edges.specs.Counts.{is_due, lowered, met_at, raised};
ghost use Rattle.depend_edges.specs.Listed.{ListedLists};
ghost use Rattle.depend_edges.specs.Places.{AtDepend, AtEdge, AtGroup, IsEdgeAt, IsGroupAt};
ghost use Rattle.depend_edges.specs.declared.listed.Count.{Count};
ghost use Rattle.depend_graph.specs.Flow.{HasMetDue, HasMetGroup, HasPassed, HasRoomAt};
ghost use Rattle.depend_graph.specs.Flow.{all_freed, depend_opened, flow_in, is_last_of, is_positive, slots_opened, waiting_of};

use crate::progress::opened::Opened;
use crate::tally::Tally;
use depend_edges::{EdgeAt, Listed, edge_in};

/// Whether the group at a place of the depend at a place isn't met and lacks no target.
pub(crate) fn is_due_in(depends: &[Listed], place: u32, group: u32) -> bool
    requires { IsGroupAt depends.now place group }
    ensures { AtGroup depends.now place group (λ d g c. result ≡ is_due g c) }
{
    depends[place as usize].is_due(group)
}

/// One target of the group fewer is undone.
pub(crate) fn lower_in(depends: &mut Vec<Listed>, place: u32, group: u32)
    ensures depends { depends.new.items ≡ changed_at depends.old.items place (lowered group) }
    ensures capacity { vec_capacity depends.new ≡ vec_capacity depends.old }
{
    let at = place as usize;
    if at < depends.len() {
        depends[at].lower(group);
    }
}

/// One target of the group more is undone.
pub(crate) fn raise_in(depends: &mut Vec<Listed>, place: u32, group: u32)
    requires { (d : ListedLists) (c : Count) → slice_get depends.old.items place ≡ Some d → slice_get d.counts group ≡ Some c → c.undone < 2 ^ 32 - 1 }
    ensures depends { depends.new.items ≡ changed_at depends.old.items place (raised group) }
    ensures capacity { vec_capacity depends.new ≡ vec_capacity depends.old }
{
    let at = place as usize;
    if at < depends.len() {
        depends[at].raise(group);
    }
}

// The group is met.
fn set_met_in(depends: &mut Vec<Listed>, place: u32, group: u32)
    ensures depends { depends.new.items ≡ changed_at depends.old.items place (met_at group) }
    ensures capacity { vec_capacity depends.new ≡ vec_capacity depends.old }
{
    let at = place as usize;
    if at < depends.len() {
        depends[at].set_met(group);
    }
}

impl Tally {
    /// The group at a place of the depend at a place is met, with those who wait in it.
    pub(crate) fn meet(&mut self, opened: &mut Opened, place: u32, group: u32)
        requires there { IsGroupAt self.old.depends.items place group }
        requires room { HasRoomAt (flow_in self.old opened.old) place }
        ensures flow { HasMetGroup place group (flow_in self.old opened.old) (flow_in self.new opened.new) }
        ensures capacity { vec_capacity self.new.depends ≡ vec_capacity self.old.depends }
    {
        free_in(
            self.depends.as_slice(),
            &mut self.unmet,
            opened,
            place,
            group,
        );
        count_off_in(self.depends.as_slice(), &mut self.left, opened, place);
        set_met_in(&mut self.depends, place, group);
    }

    // The group at a place is met where it isn't yet and lacks no target.
    fn meet_if_due(&mut self, opened: &mut Opened, place: u32, group: u32)
        requires there { IsGroupAt self.old.depends.items place group }
        requires room { HasRoomAt (flow_in self.old opened.old) place }
        ensures flow { HasMetDue place group (flow_in self.old opened.old) (flow_in self.new opened.new) }
        ensures capacity { vec_capacity self.new.depends ≡ vec_capacity self.old.depends }
    {
        if is_due_in(self.depends.as_slice(), place, group) {
            self.meet(opened, place, group);
        }
    }

    /// The target of an edge is done: its group lacks one fewer, and is met where it lacks none. The result is where the way goes on.
    pub(crate) fn pass(&mut self, opened: &mut Opened, at: EdgeAt) -> Option<EdgeAt>
        requires there { IsEdgeAt self.old.depends.items at }
        requires room { HasRoomAt (flow_in self.old opened.old) at.depend }
        ensures flow { HasPassed at (flow_in self.old opened.old) (flow_in self.new opened.new) }
        ensures next { AtEdge self.old.depends.items at (λ d e. result ≡ e.next) }
        ensures capacity { vec_capacity self.new.depends ≡ vec_capacity self.old.depends }
    {
        let edge = edge_in(self.depends.as_slice(), at);
        lower_in(&mut self.depends, at.depend, edge.group);
        self.meet_if_due(opened, at.depend, edge.group);
        edge.next
    }
}

// Those who wait in the group wait in one unmet group fewer.
fn free_in(depends: &[Listed], unmet: &mut Vec<u32>, opened: &mut Opened, place: u32, group: u32)
    requires there { IsGroupAt depends.now place group }
    requires slots { length opened.old.slots + count_by is_positive unmet.old.items ≤ SLOT_LIMIT }
    ensures slots { AtGroup depends.now place group (λ d g c. opened.new ≡ slots_opened unmet.old.items opened.old g.waiters) }
    ensures unmet { AtGroup depends.now place group (λ d g c. unmet.new.items ≡ (all_freed (waiting_of unmet.old.items opened.old.slots) g.waiters).unmet) }
{
    opened.open_waiters(unmet, depends[place as usize].waiters(group));
}

// Where one group of the depend at a place is unmet, the depend is satisfied by that.
fn count_off_in(depends: &[Listed], left: &mut u32, opened: &mut Opened, place: u32)
    requires there { place < length depends.now }
    requires within { AtDepend depends.now place (λ d. length d.groups ≤ MOST_GROUPS) }
    requires satisfied { AtDepend depends.now place (λ d. is_last_of d ≡ true → length opened.old.satisfied < MOST_DEPENDS) }
    ensures left { AtDepend depends.now place (λ d. left.new ≡ (if is_last_of d then left.old - length d.groups else left.old)) }
    ensures opened { AtDepend depends.now place (λ d. opened.new ≡ depend_opened d opened.old) }
{
    count_off(&depends[place as usize], left, opened);
}

// Where one group of the depend is unmet, the depend is satisfied by that.
fn count_off(listed: &Listed, left: &mut u32, opened: &mut Opened)
    requires within { length listed.now.groups ≤ MOST_GROUPS }
    requires satisfied { is_last_of listed.now ≡ true → length opened.old.satisfied < MOST_DEPENDS }
    ensures left { left.new ≡ (if is_last_of listed.now then left.old - length listed.now.groups else left.old) }
    ensures opened { opened.new ≡ depend_opened listed.now opened.old }
{
    if listed.unmet() == 1 {
        *left = left.saturating_sub(listed.len() as u32);
        opened.satisfy(listed.number());
    }
}

/// The target of an edge isn't done any more: its group lacks one more. The result is where the way goes on.
pub(crate) fn pass_back(depends: &mut Vec<Listed>, at: EdgeAt) -> Option<EdgeAt>
    requires there { IsEdgeAt depends.old.items at }
    requires room { AtEdge depends.old.items at (λ d e. (c : Count) → slice_get d.counts e.group ≡ Some c → c.undone < 2 ^ 32 - 1) }
    ensures depends { AtEdge depends.old.items at (λ d e. depends.new.items ≡ changed_at depends.old.items at.depend (raised e.group)) }
    ensures next { AtEdge depends.old.items at (λ d e. result ≡ e.next) }
    ensures capacity { vec_capacity depends.new ≡ vec_capacity depends.old }
{
    let edge = edge_in(depends.as_slice(), at);
    raise_in(depends, at.depend, edge.group);
    edge.next
}
