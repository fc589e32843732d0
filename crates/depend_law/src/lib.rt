//! What depends keep along the farm's runs. The public functions here do nothing: their contracts are the laws.
#![tactic(auto)]

mod laws;

pub use laws::{kept_farms_are_settled, legal_runs_keep_farms, marks_are_earned};
