//! The ledger of subscriptions: their sizes and bursts, and what is booked of them.
#![tactic(auto)]

mod places;
mod ratio;
mod restore;
mod subs;

pub use ratio::by_ratio;
pub use subs::{SubState, Subs};
