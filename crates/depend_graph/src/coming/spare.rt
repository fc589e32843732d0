//! What is reserved for a depend.

use depend_edges::{Count, Edge};
use std::marker::Model;

/// The memory that was taken for the groups of one depend: a count for each group, and an edge for each of their targets.
#[derive(Drop)]
pub struct GraphSpare {
    pub(crate) counts: Vec<Count>,
    pub(crate) edges: Vec<Edge>,
}

impl Model for GraphSpare {
    ghost use Rattle.depend_graph.specs.Spare as types;

    ghost Value = { types.SpareLists };

    ghost use Rattle.depend_graph.specs.SpareInside.{IsSpare, spare_in};

    ghost view = { spare_in };

    ghost invariant = { IsSpare };
}
