//! The book of jobs: their rows, their layers, the frame slots, and how many frames of each job are in which state.
#![tactic(auto)]

mod change;
mod copy;
mod ending;
mod jobs;
mod pause;
mod placement;
mod reading;
mod restoring;

pub use job_entries::Counts;
pub use jobs::Jobs;
pub use placement::placing::{JobSpare, Placing};
pub use reading::frame_view::FrameView;
