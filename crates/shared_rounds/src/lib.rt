//! A round of bookings by a dispatcher that stands beside others, on the words that they share.
#![tactic(auto)]

mod claiming;
mod confirming;
mod gate;
mod planning;
mod round;
mod rounds;
mod trying;

pub use gate::{Gate, OpenGate, Point};
pub use round::{Outcome, Round};
pub use rounds::book_round;

// What the crates above name through this one. They don't list it too: a build sums a crate up once for each way that leads to it.
pub use shared_bot;
pub use shared_bot::{booking_recorder, farm_core, recorder, recording_turns};
