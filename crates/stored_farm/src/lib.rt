//! Judging all rows of a store one by one, those of depends too, and the checks after the last one.
#![tactic(auto)]

mod depend_forms;
mod ends;
mod flags;
mod groups;
mod judging;
mod keeping;
mod marks;
mod order;
mod self_waits;
mod stored_farm;

pub use stored_farm::StoredFarm;
