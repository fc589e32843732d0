//! The depends of the farm: their rows, and which of their groups are met.
#![tactic(auto)]

mod changes;
mod depends;
mod forgetting;
mod new_depend;
mod newest;
mod places;
mod restoring;
mod room;
mod row_list;
mod waiting;

pub use depends::Depends;
pub use new_depend::NewDepend;
