//! What dispatchers share: the words, and the recorder behind a lock.
#![tactic(auto)]

mod bot;
mod catching_up;
mod locked;
mod opened;

pub use bot::Bot;
pub use catching_up::{catch_up, notice, open_pass};
pub use locked::Locked;
pub use opened::Opened;

// What the crates above name through this one. They don't list it too: a build sums a crate up once for each way that leads to it.
pub use dispatcher::{booking_recorder, farm_core, recorder, recording_turns};
