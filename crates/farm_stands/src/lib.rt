//! What the farm says that each shared word has to be, and which words a change of its rows is about.
#![tactic(auto)]

mod bounds;
mod law;
mod turn;
mod turns;
mod words;

pub use bounds::{HostSize, burst, host_size, most};
pub use law::{turns_cover, turns_finish};
pub use turn::{Turn, turn_of};
pub use turns::turns_of;
pub use words::{SlotWords, slot_words};
