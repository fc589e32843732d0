//! The rows of the store, and in `specs/` the rows of a farm.
#![tactic(auto)]

mod book_lists;
mod examples;
mod farm_row;
mod frame_row;
mod head_row;
mod ids;
mod key_parts;
mod last_changes;
mod old_rows;
mod recovering;
mod row_change;
mod row_key;
mod same_rows;
mod seen_keys;

pub use book_lists::BookLists;
pub use examples::{every_kind_has_its_rows, new_farms_have_one_row, unused_slots_have_no_row};
pub use farm_row::FarmRow;
pub use frame_row::{FrameRow, StoredFrame, StoredState};
pub use head_row::{HeadRow, ROW_FORMAT};
pub use ids::{GROUP_IDS, LAYER_IDS, group_id, layer_id};
pub use last_changes::exactly;
pub use old_rows::OldRows;
pub use recovering::{rows_at_fault_are_named, rows_give_the_farm_back};
pub use row_change::RowChange;
pub use row_key::RowKey;
pub use same_rows::{
    is_same_alloc, is_same_depend, is_same_frame, is_same_host, is_same_job, is_same_layer,
    is_same_limit, is_same_show,
};
