//! The answer to one line of a session that stands beside others, over what they share.
#![tactic(auto)]

mod beside;
mod entering;
mod hearing;
mod listing;
mod replying;
mod reporting;

pub use beside::answer_beside;

// What the crates above name through this one. They don't list it too: a build sums a crate up once for each way that leads to it.
pub use line_answers;
pub use shared_rounds;
