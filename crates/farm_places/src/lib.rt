//! What places name: jobs, their layers and frames by their names and numbers, as they stand in the farm's books.
#![tactic(auto)]

mod ends;
mod frames;
mod limits;
mod numbered;
mod refused;
mod shapes;
mod states;

pub use ends::{FoundEnd, check_part, end_in, find_end};
pub use frames::find_frame;
pub use limits::{check_limits, limits_of};
pub use refused::{missing, unknown_frame};
pub use shapes::part_shape;
pub use states::{check_eat, check_kill, check_retry};
