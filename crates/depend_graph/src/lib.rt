//! Which groups of depends are met, and how many unmet ones each frame waits in.
#![tactic(auto)]

mod coming;
mod copying;
mod going;
mod graph;
mod group_marks;
mod progress;
mod tally;
mod trials;

pub use coming::spare::GraphSpare;
pub use graph::Graph;
pub use progress::opened::Opened;
pub use trials::completion::Completion;
pub use trials::marks::Marks;
