//! A draft of the farm: the books with the rows that an entry has changed so far laid over them.
#![tactic(auto)]

mod draft;
mod ends;
mod killed;
mod life;
mod loses;
mod rows;
mod slot_change;
mod stopped;
mod verdict;

pub use draft::Draft;
pub use rows::Rows;
pub use slot_change::SlotChange;
pub use stopped::{retried_row, stopped_row};
