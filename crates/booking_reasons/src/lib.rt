//! Why a frame may not be booked on a host.
#![tactic(auto)]

mod not_booked;

pub use not_booked::{NotBooked, reasons_are_exact};
