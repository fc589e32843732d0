//! The recorder on the words: the farm, the keeper of its rows and the shared words are changed together.
#![tactic(auto)]

mod alone_booking;
mod alone_claim;
mod book_result;
mod booking_alone;
mod catching_up;
mod claiming;
mod dispatching;
mod entering;
mod farm_recorder;
mod naming;
mod pass;
mod plain;
mod reading;
mod recording;
mod refusal;

pub use book_result::BookResult;
pub use farm_recorder::Recorder;
pub use naming::Naming;
pub use pass::Pass;
pub use refusal::{CommitRefusal, ConfirmRefusal, PassRefusal, RecordFault};

// What the crates above name through this one. They don't list it too: a build sums a crate up once for each way that leads to it.
pub use farm_core;
pub use recorder;
pub use recording_turns;
