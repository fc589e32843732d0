//! Whole entries, and a whole farm, on the words: the steps of the recorder's seat, one after the other.
#![tactic(auto)]

mod carrying;
mod free;
mod placing;
mod sizes;

pub use carrying::carry_out;
pub use placing::place_farm;
pub use sizes::{give_size, resized_in, take_size};
