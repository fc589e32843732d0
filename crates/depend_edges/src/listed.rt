//! A depend as the graph lists it.

ghost use Rattle.std.specs.Prelude.{◌≡◌, ◌<◌, ◌-◌, ◌^◌, Some, false, length, slice_get};
ghost use Rattle.farm_types.specs.declared.depend.Group.{Group};
ghost use Rattle.depend_edges.specs.Bare.{edge_changed, with_next, with_prev};
ghost use Rattle.depend_edges.specs.Counts.{becomes_due, is_due, lowered, met_at, raised};
ghost use Rattle.depend_edges.specs.Listed.{OfGroup, emptied, is_enough, is_there};
ghost use Rattle.depend_edges.specs.declared.listed.Count.{Count};

use crate::links::{Edge, EdgeAt};
use farm_types::{DependNo, Group, Items, Slot};
use std::alloc::Global;
use std::marker::Model;

/// How many targets of a group aren't done, and whether the group is met.
#[derive(Clone, Copy)]
pub struct Count {
    pub undone: u32,
    pub met: bool,
}

/// A depend: its groups, a count for each of them, an edge for each target of each group in order, and how many groups aren't met. One that was
/// forgotten keeps its number, by which its place is found, and nothing else.
#[derive(Drop)]
pub struct Listed {
    pub(crate) depend: DependNo,
    pub(crate) groups: Items<Group>,
    pub(crate) counts: Vec<Count>,
    pub(crate) edges: Vec<Edge>,
    pub(crate) unmet: u32,
    pub(crate) gone: bool,
}

impl Model for Listed {
    ghost use Rattle.depend_edges.specs.Listed as types;

    ghost Value = { types.ListedLists };

    ghost use Rattle.depend_edges.specs.ListedInside.{lists_in};

    ghost view = { lists_in };
}

impl Listed {
    /// A depend that is there, of these groups, with a count for each of them, an edge for each target, and so many groups that aren't met.
    pub fn new(
        depend: DependNo,
        groups: Items<Group>,
        counts: Vec<Count>,
        edges: Vec<Edge>,
        unmet: u32,
    ) -> Listed
        ensures { result ≡ record { depend = depend; groups = groups; counts = counts.items; edges = edges.items; unmet = unmet; gone = false } }
    {
        Listed {
            depend,
            groups,
            counts,
            edges,
            unmet,
            gone: false,
        }
    }

    /// The depend's number.
    pub fn number(&self) -> DependNo
        ensures { result ≡ self.now.depend }
    {
        self.depend
    }

    /// How many groups aren't met.
    pub fn unmet(&self) -> u32
        ensures { result ≡ self.now.unmet }
    {
        self.unmet
    }

    /// Whether it wasn't forgotten.
    pub fn is_there(&self) -> bool
        ensures { result ≡ is_there self.now }
    {
        !self.gone
    }

    /// Its groups.
    pub fn groups(&self) -> &[Group]
        ensures { result.now ≡ self.now.groups }
    {
        self.groups.as_slice()
    }

    /// A count for each group.
    pub fn counts(&self) -> &[Count]
        ensures { result.now ≡ self.now.counts }
    {
        self.counts.as_slice()
    }

    /// How many edges there are.
    pub(crate) fn edge_count(&self) -> usize
        ensures { result ≡ length self.now.edges }
    {
        self.edges.len()
    }

    /// How many groups there are.
    pub fn len(&self) -> usize
        ensures { result ≡ length self.now.groups }
    {
        self.groups.len()
    }

    /// The edge at a place.
    pub(crate) fn edge(&self, edge: u32) -> Edge
        requires { edge < length self.now.edges }
        ensures { slice_get self.now.edges edge ≡ Some result }
    {
        edge_of(self.edges.as_slice(), edge)
    }

    /// Those who wait in the group at a place.
    pub fn waiters(&self, group: u32) -> &[Slot]
        requires { group < length self.now.groups }
        ensures { (g : Group) → slice_get self.now.groups group ≡ Some g → result.now ≡ g.waiters }
    {
        self.groups.as_slice()[group as usize].waiters.as_slice()
    }

    /// The position of the group at a place.
    pub fn position(&self, group: u32) -> u32
        requires { group < length self.now.groups }
        ensures { (g : Group) → slice_get self.now.groups group ≡ Some g → result ≡ g.position }
    {
        self.groups.as_slice()[group as usize].position
    }

    /// Whether the group at a place is met.
    pub fn is_met(&self, group: u32) -> bool
        requires { group < length self.now.counts }
        ensures { (c : Count) → slice_get self.now.counts group ≡ Some c → result ≡ c.met }
    {
        count_of(self.counts.as_slice(), group).met
    }

    /// How many targets of the group at a place aren't done.
    pub fn undone(&self, group: u32) -> u32
        requires { group < length self.now.counts }
        ensures { (c : Count) → slice_get self.now.counts group ≡ Some c → result ≡ c.undone }
    {
        count_of(self.counts.as_slice(), group).undone
    }

    /// Whether the group at a place isn't met, lacks that many targets, and would lack none with one fewer.
    pub fn becomes_due(&self, group: u32, lacked: u32) -> bool
        requires groups { group < length self.now.groups }
        requires counts { group < length self.now.counts }
        ensures { OfGroup self.now group (λ g c. result ≡ becomes_due g c lacked) }
    {
        let count = count_of(self.counts.as_slice(), group);
        becomes_due_by(&self.groups.as_slice()[group as usize], count, lacked)
    }

    /// Whether the group at a place isn't met and lacks no target.
    pub fn is_due(&self, group: u32) -> bool
        requires groups { group < length self.now.groups }
        requires counts { group < length self.now.counts }
        ensures { OfGroup self.now group (λ g c. result ≡ is_due g c) }
    {
        let count = count_of(self.counts.as_slice(), group);
        is_due_by(&self.groups.as_slice()[group as usize], count)
    }

    /// One target of the group fewer is undone.
    pub fn lower(&mut self, group: u32)
        ensures { self.new ≡ lowered group self.old }
    {
        let place = group as usize;
        if place < self.counts.len() {
            self.counts[place].undone = self.counts[place].undone.saturating_sub(1);
        }
    }

    /// One target of the group more is undone.
    pub fn raise(&mut self, group: u32)
        requires { (c : Count) → slice_get self.old.counts group ≡ Some c → c.undone < 2 ^ 32 - 1 }
        ensures { self.new ≡ raised group self.old }
    {
        let place = group as usize;
        if place < self.counts.len() {
            self.counts[place].undone += 1;
        }
    }

    /// The way goes on from the edge to that one.
    pub(crate) fn set_next(&mut self, edge: u32, next: Option<EdgeAt>)
        ensures { self.new ≡ edge_changed edge (with_next next) self.old }
    {
        let place = edge as usize;
        if place < self.edges.len() {
            self.edges[place].next = next;
        }
    }

    /// The way comes to the edge from that one.
    pub(crate) fn set_prev(&mut self, edge: u32, prev: Option<EdgeAt>)
        ensures { self.new ≡ edge_changed edge (with_prev prev) self.old }
    {
        let place = edge as usize;
        if place < self.edges.len() {
            self.edges[place].prev = prev;
        }
    }

    /// It is forgotten: its number stays.
    pub fn empty(&mut self, alloc: Global)
        ensures { self.new ≡ emptied self.old }
    {
        self.groups = Items::new(alloc);
        self.counts = Vec::new(alloc);
        self.edges = Vec::new(alloc);
        self.unmet = 0;
        self.gone = true;
    }

    /// The group is met.
    pub fn set_met(&mut self, group: u32)
        ensures { self.new ≡ met_at group self.old }
    {
        let place = group as usize;
        if place < self.counts.len() {
            self.counts[place].met = true;
        }
        self.unmet = self.unmet.saturating_sub(1);
    }
}

// The edge at a place.
fn edge_of(edges: &[Edge], edge: u32) -> Edge
    requires { edge < length edges.now }
    ensures { slice_get edges.now edge ≡ Some result }
{
    edges[edge as usize]
}

// The count at a place.
fn count_of(counts: &[Count], group: u32) -> Count
    requires { group < length counts.now }
    ensures { slice_get counts.now group ≡ Some result }
{
    counts[group as usize]
}

// Whether the group isn't met and lacks no target.
fn is_due_by(group: &Group, count: Count) -> bool
    ensures { result ≡ is_due group.now count }
{
    !count.met && is_enough(group, count.undone)
}

// Whether the group isn't met, lacks that many targets, and would lack none with one fewer.
fn becomes_due_by(group: &Group, count: Count, lacked: u32) -> bool
    ensures { result ≡ becomes_due group.now count lacked }
{
    !count.met && !is_enough(group, lacked) && is_enough(group, lacked.saturating_sub(1))
}

/// Whether a group lacks no target, where so many aren't done.
pub fn is_enough(group: &Group, undone: u32) -> bool
    ensures { result ≡ is_enough group.now undone }
{
    if group.any {
        (undone as usize) < group.targets.len()
    } else {
        undone == 0
    }
}
