//! The live attempts: which slot has one, what they use of hosts and subscriptions, and each host's own.
#![tactic(auto)]

mod attempts;
mod begin;
mod copy;
mod own;
mod restore;
mod sums;
mod way;

pub use attempts::Attempts;
