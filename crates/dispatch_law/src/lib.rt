//! The law of the order of dispatch.
#![tactic(auto)]

mod law;

pub use law::dispatch_follows_the_index;
