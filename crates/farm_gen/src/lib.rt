//! Stated farms: the entries that make them, and how the attempts of a load exit.
#![tactic(auto)]

mod demo;
mod exits;
mod laws;
mod limits;
mod load;
mod load_job;

pub use demo::demo_entries;
pub use exits::load_exit;
pub use laws::loads_are_runs;
pub use limits::MOST_LOAD;
pub use load::load_entries;
