//! What a change would meet.

ghost use Rattle.std.specs.Prelude.{◌≡◌};
ghost use Rattle.depend_graph.specs.Graph.{no_marks};

use farm_types::{DependNo, Items, MetRow};
use std::alloc::Global;

/// The marks of the groups that would become met, and the numbers of the depends that would become satisfied, in no order.
#[derive(Drop)]
pub struct Marks {
    pub met: Items<MetRow>,
    pub satisfied: Items<DependNo>,
}

impl Marks {
    /// Nothing would be met.
    pub fn none(alloc: Global) -> Marks
        ensures { result ≡ no_marks }
    {
        Marks {
            met: Items::new(alloc),
            satisfied: Items::new(alloc),
        }
    }
}
