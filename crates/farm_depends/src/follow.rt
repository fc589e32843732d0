//! What follows an act.

ghost use Rattle.std.specs.Prelude.{◌≡◌};
ghost use Rattle.farm_depends.specs.Follow.{nothing_follows};

use depend_book::NewDepend;
use depend_graph::{GraphSpare, Marks};
use farm_types::{DependNo, Items, Slot};
use std::alloc::Global;

/// What follows an act of depends: the depends that come, with the memory that was taken for each, in the same order; the one that is dropped; the
/// frames that the act completes, with what is met by that; the one that isn't done any more; those that open; those that are blocked, and whether these leave their version.
/// `count` is what the reply to a depend or a drop counts: the frames that wait unmet, and those that open.
#[derive(Drop)]
pub struct Follow {
    pub depends: Items<NewDepend>,
    pub spares: Items<GraphSpare>,
    pub dropped: Option<DependNo>,
    pub done: Items<Slot>,
    pub marks: Marks,
    pub reopened: Option<Slot>,
    pub opened: Items<Slot>,
    pub blocked: Items<Slot>,
    pub raises: bool,
    pub count: u32,
}

/// Nothing follows.
pub(crate) fn follow_nothing(alloc: Global) -> Follow
    ensures { result ≡ nothing_follows }
{
    Follow {
        depends: Items::new(alloc),
        spares: Items::new(alloc),
        dropped: None,
        done: Items::new(alloc),
        marks: Marks::none(alloc),
        reopened: None,
        opened: Items::new(alloc),
        blocked: Items::new(alloc),
        raises: false,
        count: 0,
    }
}
