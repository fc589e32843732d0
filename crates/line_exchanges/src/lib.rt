//! Exchanges of a session: a line is read, answered, and its reply written.
#![tactic(auto)]

mod exchanged;
mod sending;

pub use exchanged::Exchanged;
pub use sending::send;
