//! Sessions of connections beside others.
#![tactic(auto)]

mod exchange;
mod lines;
mod serve;
mod session_end;

pub use serve::serve_one;
pub use session_end::SessionEnd;

// What the crates above name through this one. They don't list it too: a build sums a crate up once for each way that leads to it.
pub use shared_lines::line_answers::booking_recorder;
pub use shared_lines::shared_rounds;
pub use shared_lines::shared_rounds::shared_bot;
