//! The book of allocations, and which hosts a layer's tags match.
#![tactic(auto)]

mod allocs;
mod copy;
mod names;
mod read;
mod restore;
mod spare;
mod tags;

pub use allocs::{AllocRefusal, Allocs};
pub use spare::Spare;
pub use tags::matches;
