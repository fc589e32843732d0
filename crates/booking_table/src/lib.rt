//! The table of booking words, and the calls of those who claim frames: each changes one word in one atomic step.
#![tactic(auto)]

mod burst;
mod claiming;
mod doing;
mod holds;
mod laws;
mod limit;
mod plays;
mod room;
mod seen;
mod steps;
mod table;
mod words;

pub use burst::BurstFull;
pub use claiming::{Dropped, Taken};
pub use holds::{BurstHold, Claim, Hold};
pub use laws::looks_stay_in_the_trail;
pub use limit::LimitFull;
pub use plays::BookingRule;
pub use room::HostShort;
pub use seen::Seen;
pub use table::{Seat, Table};
