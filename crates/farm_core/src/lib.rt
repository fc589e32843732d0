//! The farm: what an entry does to it, and when a frame may be booked. Each farm keeps what every farm keeps.
#![tactic(auto)]

mod booking;
mod change;
mod changes;
mod copy;
mod farm;
mod following;
mod old_rows;
mod read;
mod record;
mod restore;
mod rows;

pub use booking::Booking;
pub use change::Change;
pub use farm::Farm;
