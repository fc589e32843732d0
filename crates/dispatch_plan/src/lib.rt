//! The order in which frames are offered to a host.
#![tactic(auto)]

mod law;
mod offers;
mod planning;
mod subs;

pub use law::dispatch_lists_each_once;
pub use planning::plan;
