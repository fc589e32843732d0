//! Judging the rows of a store one by one: a row of kind 1 to 8 is taken where it comes after the last one and fits the farm that the rows so far say.
#![tactic(auto)]

mod alloc_row;
mod ends;
mod forms;
mod frame_row;
mod head_row;
mod host_row;
mod job_row;
mod layer_row;
mod limit_row;
mod readers;
mod show_row;
mod stored_rows;
mod sub_row;
mod within;

pub use stored_rows::StoredRows;
