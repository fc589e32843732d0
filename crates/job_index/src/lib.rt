//! The index of the book of jobs: jobs in order by keys, where the frames of a layer stand and which of them wait, and the jobs' names.
#![tactic(auto)]

mod copies;
mod job_names;
mod layer_frames;
mod limits;
mod ready_jobs;

pub use copies::plain_copies;
pub use job_names::JobNames;
pub use layer_frames::LayerFrames;
pub use limits::MOST_JOBS;
pub use ready_jobs::{JOB_NUMBERS, ReadyJobs};
