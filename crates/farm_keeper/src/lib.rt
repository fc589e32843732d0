//! Keepers of rows: what a stop of the machine leaves of the farm.
#![tactic(auto)]

mod fault;
mod keeper;
mod laws;
mod memory_keeper;
mod row;
mod row_table;

pub use fault::KeeperFault;
pub use keeper::Keeper;
pub use laws::{batches_change_what_they_name, rows_have_one_list, stops_leave_one_batch};
pub use memory_keeper::MemoryKeeper;
pub use row::{Batch, Row};
