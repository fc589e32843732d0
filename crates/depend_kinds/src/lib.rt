//! The groups of a depend: which frames wait, and for which; and the frames that an end names.
#![tactic(auto)]

mod kinds;
mod layer;
mod numbered;
mod pairs;
mod parts;

pub use kinds::groups;
pub use parts::slots_at;
