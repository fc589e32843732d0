//! The file that keeps a farm: opens it, and tells what is wrong with one that can't be opened.
#![tactic(auto)]

mod fault;
mod opening;
mod places;

pub use fault::FileFault;
pub use opening::{FileKeeper, open_keeper};
