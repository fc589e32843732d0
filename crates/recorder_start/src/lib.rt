//! What a program begins a recorder with: the farm of a keeper's rows, a recorder over a new table, and entries that lines ask for.
#![tactic(auto)]

mod entries;
mod on_table;
mod stored;

pub use entries::entry_of;
pub use on_table::recorder_on;
pub use stored::{OpenFault, load_farm};
