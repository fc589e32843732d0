//! Sessions over stores: with calls that fail, and on disks that stop at each of their calls in turn.
#![tactic(auto)]

mod expected;
mod fault;
mod remains;
mod report;
mod rows;
mod series;
mod sessions;
mod stops;
mod store;
mod watched;

pub use report::run_sessions;
pub use sessions::{Session, Told};
