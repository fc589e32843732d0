//! What follows an act of depends: those that come and go, groups that are met, frames that open or are blocked.
#![tactic(auto)]

mod applying;
mod completing;
mod follow;
mod marks;
mod moving;
mod new_depends;
mod preparing;
mod refused;
mod restored;
mod retrying;
mod rows;

pub use applying::{apply_follow, reserve_follow};
pub use follow::Follow;
pub use preparing::prepare_follow;
pub use restored::depends::restore_depends;
pub use rows::changed::follow_rows;
pub use rows::completed::completes;
