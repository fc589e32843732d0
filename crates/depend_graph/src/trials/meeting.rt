//! What is met in a trial.

ghost use Rattle.std.specs.Prelude.{◌≡◌, ◌<◌, OnOk, Some, length, slice_get};
ghost use Rattle.farm_types.specs.declared.depend.Group.{Group};
ghost use Rattle.depend_graph.specs.Meeting.{met_lists};
ghost use Rattle.depend_graph.specs.Trial.{IsMet, marks_told, nothing_met};

use crate::trials::marks::Marks;
use crate::trials::over::lower;
use depend_edges::Listed;
use farm_types::{DependNo, Items, MetRow};
use indexmap::IndexMap;
use std::alloc::{AllocError, Global};

/// By the places of depends how many of their groups wouldn't be met, where that isn't as in the graph; the marks of the groups that would be met; and
/// the numbers of the depends that would be satisfied.
#[derive(Drop)]
pub(crate) struct Meeting {
    pub(crate) left: IndexMap<u64, u32>,
    pub(crate) met: Vec<MetRow>,
    pub(crate) satisfied: Vec<DependNo>,
}

impl Meeting {
    /// Nothing is met.
    pub(crate) fn new(alloc: Global) -> Meeting
        ensures { met_lists result ≡ nothing_met }
    {
        Meeting {
            left: IndexMap::new(alloc),
            met: Vec::new(alloc),
            satisfied: Vec::new(alloc),
        }
    }

    /// The group of the depend at a place would be met too.
    pub(crate) fn meet(&mut self, listed: &Listed, place: u32, group: u32) -> Result<(), AllocError>
        requires { group < length listed.now.groups }
        ensures { OnOk result ((g : Group) → slice_get listed.now.groups group ≡ Some g → IsMet place listed.now g (met_lists self.old) (met_lists self.new)) }
    {
        let depend = listed.number();
        let position = listed.position(group);
        self.met.push(MetRow { depend, position })?;
        let before = lower(&mut self.left, u64::from(place), listed.unmet())?;
        if before == 1 {
            self.satisfied.push(depend)?;
        }
        Ok(())
    }

    /// The lists of what would be met.
    pub(crate) fn marks(self) -> Marks
        ensures { result ≡ marks_told (met_lists self) }
    {
        let Meeting {
            left: _,
            met,
            satisfied,
        } = self;
        Marks {
            met: Items::from_vec(met),
            satisfied: Items::from_vec(satisfied),
        }
    }
}
