//! Changes of the farm: an entry is prepared as the rows that it leaves, and they are put into the books.
#![tactic(auto)]

mod act_answer;
mod applying;
mod change;
mod prepare_depend;
mod prepare_host;
mod prepare_jobs;
mod prepare_operators;
mod prepare_slots;
mod preparing;
mod refused;
mod reports;
mod row_boot;
mod row_changes;
mod row_job;
mod rows_of;

pub use act_answer::ActAnswer;
pub use applying::{apply, record, reserve};
pub use change::Change;
pub use preparing::prepare;
