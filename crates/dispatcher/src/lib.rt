//! The round of bookings that follows a report.
#![tactic(auto)]

mod rounds;
mod walked;

pub use rounds::{book_alone, left_after};
pub use walked::Walked;

// What the crates above name through this one. They don't list it too: a build sums a crate up once for each way that leads to it.
pub use booking_recorder;
pub use booking_recorder::{farm_core, recorder, recording_turns};
