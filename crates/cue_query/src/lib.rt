//! Lists of the farm: its shows, allocations, subscriptions, limits, hosts, jobs and live attempts, and the layers, frames and depends of a job.
#![tactic(auto)]

mod depends;
mod frames;
mod hosts;
mod jobs;
mod layers;
mod limits;
mod names;
mod page;
mod procs;
mod query;
mod shows;
mod subs;

pub use query::list;
