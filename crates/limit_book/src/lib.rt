//! The book of limits: how many frames of the layers that have each one run at most, and how many run.
#![tactic(auto)]

mod copy;
mod limits;
mod plan;
mod read;
mod restore;
mod running;
mod spare;

pub use limits::Limits;
pub use plan::{LimitPlan, LimitRefusal};
pub use read::LimitState;
pub use spare::Spare;
