//! A depend is dropped: all its groups are met.

ghost use Rattle.std.specs.Prelude.{◌≡◌, ◌*◌, ◌≤◌, ◌<◌, None, IfSome, length, map, false, true};
ghost use Rattle.std.specs.List.{list_any};
ghost use Rattle.std.specs.Vec.{vec_capacity};
ghost use Rattle.farm_types.specs.declared.limits.TheConstants.{MOST_DEPENDS, MOST_GROUPS};
ghost use Rattle.depend_edges.specs.Listed.{has_number, is_there};
ghost use Rattle.depend_edges.specs.Places.{AtDepend, AtGroup, IsGroupAt};
ghost use Rattle.depend_edges.specs.Ways.{edge_lists};
ghost use Rattle.depend_graph.specs.Flow.{HasMetUnmet, HasRoomAt, flow_in};
ghost use Rattle.depend_graph.specs.Graph.{HasOpened, nothing_opened};
ghost use Rattle.depend_graph.specs.Inside.{HasMetAll, KeepsTally, watches};
ghost use Rattle.depend_graph.specs.Watches.{StayCounted};

use crate::progress::opened::Opened;
use crate::tally::Tally;
use depend_edges::Listed;
use farm_types::DependNo;

/// The place of the depend of that number.
pub(crate) fn place_of(depends: &[Listed], depend: DependNo) -> u32
    requires there { list_any (has_number depend) depends.now ≡ true }
    requires within { length depends.now ≤ 2 * MOST_DEPENDS }
    ensures there { result < length depends.now }
    ensures number { AtDepend depends.now result (λ d. has_number depend d ≡ true) }
{
    match find_place(depends, depend) {
        Some(place) => place,
        None => unreachable!(),
    }
}

/// The place of the depend of that number, if it is there. Where numbers rise, it is found by halves, and else looked for among all.
pub(crate) fn find_place(depends: &[Listed], depend: DependNo) -> Option<u32>
    requires within { length depends.now ≤ 2 * MOST_DEPENDS }
    ensures there { IfSome result (λ place. place < length depends.now) }
    ensures number { IfSome result (λ place. AtDepend depends.now place (λ d. has_number depend d ≡ true)) }
    ensures none { result ≡ None → list_any (has_number depend) depends.now ≡ false }
{
    let likely = depends.partition_point(|listed| listed.number() < depend);
    if is_number_at(depends, likely, depend) {
        return Some(likely as u32);
    }
    first_place_of(depends, depend)
}

// Whether a depend of that number stands at the place.
fn is_number_at(depends: &[Listed], place: usize, depend: DependNo) -> bool
    ensures there { result ≡ true → place < length depends.now }
    ensures number { result ≡ true → AtDepend depends.now place (λ d. has_number depend d ≡ true) }
{
    match depends.get(place) {
        None => false,
        Some(listed) => is_number_of(listed, depend),
    }
}

// The place of the first depend of that number.
fn first_place_of(depends: &[Listed], depend: DependNo) -> Option<u32>
    requires within { length depends.now ≤ 2 * MOST_DEPENDS }
    ensures there { IfSome result (λ place. place < length depends.now) }
    ensures number { IfSome result (λ place. AtDepend depends.now place (λ d. has_number depend d ≡ true)) }
    ensures none { result ≡ None → list_any (has_number depend) depends.now ≡ false }
{
    for place in 0..depends.len() {
        if is_number_of(&depends[place], depend) {
            return Some(place as u32);
        }
    }
    None
}

// Whether the depend has that number.
fn is_number_of(listed: &Listed, depend: DependNo) -> bool
    ensures { result ≡ has_number depend listed.now }
{
    listed.is_there() && listed.number() == depend
}

impl Tally {
    /// All groups of the depend at a place are met, with those who wait in them.
    pub(crate) fn meet_all(&mut self, opened: &mut Opened, place: u32)
        requires place { place < length self.old.depends.items }
        requires opened { opened.old ≡ nothing_opened }
        requires kept { KeepsTally self.old }
        ensures watches { HasMetAll self.old.depends.items place self.new.depends.items }
        ensures edges { edge_lists self.new.depends.items ≡ edge_lists self.old.depends.items }
        ensures there { map is_there self.new.depends.items ≡ map is_there self.old.depends.items }
        ensures kept { KeepsTally self.new }
        ensures counts { StayCounted self.old.depends.items self.new.depends.items }
        ensures opened { HasOpened (watches self.old.depends.items) (watches self.new.depends.items) opened.new }
    {
        let count = count_at(self.depends.as_slice(), place);
        for group in 0..count {
            self.meet_if_unmet(opened, place, group);
        }
        opened.sort();
    }

    // The group at a place is met where it isn't yet.
    fn meet_if_unmet(&mut self, opened: &mut Opened, place: u32, group: u32)
        requires there { IsGroupAt self.old.depends.items place group }
        requires room { HasRoomAt (flow_in self.old opened.old) place }
        ensures flow { HasMetUnmet place group (flow_in self.old opened.old) (flow_in self.new opened.new) }
        ensures capacity { vec_capacity self.new.depends ≡ vec_capacity self.old.depends }
    {
        if is_met_in(self.depends.as_slice(), place, group) {
            return;
        }
        self.meet(opened, place, group);
    }
}

// How many groups the depend at a place has.
fn count_at(depends: &[Listed], place: u32) -> u32
    requires place { place < length depends.now }
    requires within { AtDepend depends.now place (λ d. length d.groups ≤ MOST_GROUPS) }
    ensures { AtDepend depends.now place (λ d. result ≡ length d.groups) }
{
    size_of(&depends[place as usize])
}

// How many groups the depend has.
fn size_of(listed: &Listed) -> u32
    requires { length listed.now.groups ≤ MOST_GROUPS }
    ensures { result ≡ length listed.now.groups }
{
    listed.len() as u32
}

// Whether the group at a place of the depend at a place is met.
fn is_met_in(depends: &[Listed], place: u32, group: u32) -> bool
    requires { IsGroupAt depends.now place group }
    ensures { AtGroup depends.now place group (λ d g c. result ≡ c.met) }
{
    depends[place as usize].is_met(group)
}
