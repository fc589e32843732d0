//! The farm with its keeper: each entry is recorded in both, or in neither.
#![tactic(auto)]

mod batch;
mod keeping;
mod recorded_farm;
mod refusal;

pub use recorded_farm::RecordedFarm;
pub use refusal::RecordFault;
