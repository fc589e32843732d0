//! The way along the edges of a slot.

use farm_types::Slot;

/// An edge by the place of its depend and its place among the depend's edges.
#[derive(Clone, Copy)]
pub struct EdgeAt {
    pub depend: u32,
    pub edge: u32,
}

/// A target of a group: the slot, the group's place in its depend, the edge of the same slot that was added before, and the one that was added next.
#[derive(Clone, Copy)]
pub struct Edge {
    pub slot: Slot,
    pub group: u32,
    pub next: Option<EdgeAt>,
    pub prev: Option<EdgeAt>,
}
