//! An index of a farm's rows: what is kept beside them as they are told one by one, and rows found by their numbers.
#![tactic(auto)]

mod known_hosts;
mod known_jobs;
mod known_layer;
mod lookups;
mod names;
mod ranges;
mod subs;

pub use known_hosts::KnownHosts;
pub use known_jobs::KnownJobs;
pub use known_layer::KnownLayer;
pub use lookups::{job_in, layer_at, layer_bounds, layer_in, layer_key, place_of_job, row_at};
pub use names::Names;
pub use ranges::range_of;
pub use subs::{has_sub, sub_between};
