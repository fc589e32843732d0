//! A set of places below a length, in which the first place at or after another one is found without a walk over all.
#![tactic(auto)]

mod blocks;
mod set;

pub use set::PlaceSet;
