//! Depends as they are listed: their groups with counts, and an edge for each target, on the way of its slot.
#![tactic(auto)]

mod copying;
mod edges;
mod linking;
mod links;
mod listed;
mod relinking;
mod unlinking;

pub use edges::edges_for;
pub use linking::{edge_in, first_of, link};
pub use links::{Edge, EdgeAt};
pub use listed::{Count, Listed, is_enough};
pub use relinking::link_all;
pub use unlinking::unlink;
