//! How much room is left for depends.

ghost use Rattle.std.specs.Prelude.{◌≡◌, ◌≤◌, None, length};
ghost use Rattle.depend_graph.specs.Graph.{groups_left};
ghost use Rattle.farm_types.specs.declared.limits.TheConstants.{LAST_DEPEND, MOST_DEPENDS, MOST_GROUPS};
ghost use Rattle.farm_depends.specs.Coming.{counts_full, counts_more};
ghost use Rattle.farm_types.specs.Faults.{Refuses};

use depend_book::Depends;
use farm_types::{Counted, FarmFault, LAST_DEPEND, MOST_DEPENDS, MOST_GROUPS};

/// How many depends there are, how many groups those have together that aren't satisfied, and the next depend's number.
#[derive(Clone, Copy, Debug, PartialEq, Eq)]
pub(crate) struct Counts {
    pub(crate) depends: u64,
    pub(crate) groups: u64,
    pub(crate) next: u64,
}

/// The counts of the book.
pub(crate) fn counts_of(depends: &Depends) -> Counts
    ensures value { result ≡ record { depends = length depends.now.rows; groups = groups_left depends.now.graph.depends; next = depends.now.next } }
    ensures within { result.groups ≤ MOST_GROUPS }
{
    Counts {
        depends: depends.count() as u64,
        groups: u64::from(depends.groups_left()),
        next: depends.next_number(),
    }
}

/// Refuses a depend of so many groups for which there is no room, or no number.
pub(crate) fn check_full(counts: &Counts, groups: usize) -> Result<(), FarmFault>
    requires { counts.now.groups ≤ MOST_GROUPS }
    ensures { Refuses (counts_full counts.now groups) result }
{
    if counts.depends >= u64::from(MOST_DEPENDS) {
        return Err(FarmFault::full(u64::from(MOST_DEPENDS), Counted::Depends));
    }
    if groups as u64 > u64::from(MOST_GROUPS) - counts.groups {
        return Err(FarmFault::full(u64::from(MOST_GROUPS), Counted::Groups));
    }
    if counts.next > u64::from(LAST_DEPEND) {
        return Err(FarmFault::full(u64::from(LAST_DEPEND), Counted::DependNumbers));
    }
    Ok(())
}

/// The counts with a depend more, of so many groups, for which there was room.
pub(crate) fn counts_more(counts: &Counts, groups: usize) -> Counts
    requires { counts_full counts.now groups ≡ None }
    ensures more { result ≡ counts_more counts.now groups }
    ensures within { result.groups ≤ MOST_GROUPS }
{
    Counts {
        depends: counts.depends + 1,
        groups: counts.groups + groups as u64,
        next: counts.next + 1,
    }
}
