//! The run of a load: its hosts report in rounds, what was launched is done in the next one, and the run ends as soon as its job is finished.
#![tactic(auto)]

mod counts;
mod failures;
mod laws;
mod limits;
mod load_end;
mod load_host;
mod rounds;
mod summary;
mod summary_text;
mod turns;

pub use laws::loads_are_legal;
pub use load_end::LoadEnd;
pub use rounds::run_load;
pub use summary::Summary;
pub use summary_text::write_summary;

// What the crates above name through this one. They don't list it too: a build sums a crate up once for each way that leads to it.
pub use line_answers;
pub use line_answers::{booking_recorder, farm_core, recorder, recording_turns};
