//! The steps that only the recorder's seat takes on the table of booking words, each one atomic step on one word.
#![tactic(auto)]

mod bookings;
mod claims;
mod doing;
mod entries;
mod placing;
mod plays;
mod sizes;
mod slots;
mod steps;

pub use bookings::claims_can_be_booked;
pub use claims::{confirm_claim, withdraw_claim};
pub use entries::{Opens, close_opening, open_farm, record_booking, record_entry};
pub use placing::{place_burst, place_most, place_size, place_slot};
pub use sizes::{set_burst, set_most, set_size};
pub use slots::{change_slot, end_slot, leave_slot, set_amount, turn_slot};
