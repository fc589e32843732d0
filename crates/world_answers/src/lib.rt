//! The answer to a line on a copy of a farm, where the store refuses one commit or none: what it records, its reply, and the farm that the refused commit
//! would have made.
#![tactic(auto)]

mod acting;
mod committing;
mod ends;
mod firsts;
mod leaving;
mod on_words;
mod refusing;
mod reporting;
mod telling;
mod trial;
mod trying;
mod walking;

pub use committing::commit;
pub use trial::{Further, Trial, TrialFault};
pub use trying::try_line;
