//! Counts of faults, and which calls of an object in memory fail.
#![tactic(auto)]

mod fault_plan;
mod laws;

pub use fault_plan::FaultPlan;
pub use laws::counts_rise;
