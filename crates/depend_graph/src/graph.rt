//! The graph.

ghost use Rattle.std.specs.Prelude.{◌≡◌, ◌≤◌, [], IfOk, None, replicate};
ghost use Rattle.std.specs.List.{list_all, list_any};
ghost use Rattle.farm_types.specs.Depends.{are_done};
ghost use Rattle.depend_graph.specs.Graph.{groups_left, is_flagged, no_graph, unmet_of};
ghost use Rattle.depend_graph.specs.Inside.{KeepsTally};
ghost use Rattle.farm_types.specs.declared.limits.TheConstants.{MOST_GROUPS, SLOT_LIMIT};

use crate::tally::Tally;
use crate::trials::opens::unmet_at;
use depend_edges::EdgeAt;
use farm_types::{Group, MOST_DEPENDS, SLOT_LIMIT, Slot};
use std::alloc::{AllocError, Global};
use std::marker::Model;

/// The groups of depends, which of them are met, and which frames are done. Beside them are kept by slot in how many unmet groups the frame waits,
/// and the way along the groups that it is a target of: at each slot the edge that was added last, and at each edge the one before it and the one
/// behind it. A depend that is forgotten leaves an empty place.
#[derive(Drop)]
pub struct Graph {
    pub(crate) done: Vec<bool>,
    pub(crate) first: Vec<Option<EdgeAt>>,
    pub(crate) tally: Tally,
    pub(crate) alloc: Global,
}

impl Model for Graph {
    ghost use Rattle.depend_graph.specs.Graph as types;

    ghost Value = { types.GraphLists };

    ghost use Rattle.depend_graph.specs.Inside.{KeepsGraph, graph_of};

    ghost view = { graph_of };

    ghost invariant = { KeepsGraph };
}

impl Graph {
    /// The graph of no depends, with no frame done. It takes the memory of all slots.
    pub fn make(alloc: Global) -> Result<Graph, AllocError>
        ensures { IfOk result (λ g. g ≡ no_graph) }
    {
        Ok(Graph {
            done: vec![in alloc; false; SLOT_LIMIT as usize]?,
            first: no_edges(alloc)?,
            tally: no_tally(alloc)?,
            alloc,
        })
    }

    /// How many unmet groups the frame waits in.
    pub fn unmet(&self, slot: Slot) -> u32
        ensures { result ≡ unmet_of self.now.depends slot }
    {
        unmet_at(self.tally.unmet.as_slice(), slot)
    }

    /// Whether the frame is done.
    pub fn is_done(&self, slot: Slot) -> bool
        ensures { result ≡ is_flagged self.now.done slot }
    {
        is_flagged_at(self.done.as_slice(), slot)
    }

    /// Whether the group would be met at once.
    pub fn is_met_at_once(&self, group: &Group) -> bool
        ensures { result ≡ are_done (is_flagged self.now.done) group.now }
    {
        are_done_at(self.done.as_slice(), group)
    }

    /// How many groups the depends have together that aren't satisfied.
    pub fn groups_left(&self) -> u32
        ensures value { result ≡ groups_left self.now.depends }
        ensures within { result ≤ MOST_GROUPS }
    {
        self.tally.left
    }
}

// No depends, with room for as many as there may be, and as many empty places.
fn no_tally(alloc: Global) -> Result<Tally, AllocError>
    ensures none { IfOk result (λ t. t.depends.items ≡ []) }
    ensures kept { IfOk result KeepsTally }
{
    Ok(Tally {
        depends: Vec::with_capacity(alloc, 2 * MOST_DEPENDS as usize)?,
        unmet: vec![in alloc; 0; SLOT_LIMIT as usize]?,
        left: 0,
    })
}

// No edge for each slot.
fn no_edges(alloc: Global) -> Result<Vec<Option<EdgeAt>>, AllocError>
    ensures { IfOk result (λ edges. edges.items ≡ replicate SLOT_LIMIT None) }
{
    let mut edges = Vec::with_capacity(alloc, SLOT_LIMIT as usize)?;
    for _ in 0..SLOT_LIMIT {
        edges.push(None)?;
    }
    Ok(edges)
}

/// Whether the flag stands at the slot.
pub(crate) fn is_flagged_at(done: &[bool], slot: Slot) -> bool
    ensures { result ≡ is_flagged done.now slot }
{
    match done.get(slot.0 as usize) {
        None => false,
        Some(flag) => *flag,
    }
}

// Whether all targets of the group are done, or one of them where any is enough.
fn are_done_at(done: &[bool], group: &Group) -> bool
    ensures { result ≡ are_done (is_flagged done.now) group.now }
{
    let targets = group.targets.as_slice();
    if group.any {
        is_any_done(done, targets)
    } else {
        are_all_done(done, targets)
    }
}

// Whether one of the slots is done.
fn is_any_done(done: &[bool], slots: &[Slot]) -> bool
    ensures { result ≡ list_any (is_flagged done.now) slots.now }
{
    for slot in slots {
        if is_flagged_at(done, *slot) {
            return true;
        }
    }
    false
}

// Whether each of the slots is done.
fn are_all_done(done: &[bool], slots: &[Slot]) -> bool
    ensures { result ≡ list_all (is_flagged done.now) slots.now }
{
    for slot in slots {
        if !is_flagged_at(done, *slot) {
            return false;
        }
    }
    true
}
