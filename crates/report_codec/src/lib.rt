//! The codec of lines: what a line asks, and the text of a reply.
#![tactic(auto)]

mod alloc_line;
mod boot_line;
mod depend_line;
mod done_reader;
mod drop_line;
mod fault_reply;
mod laws;
mod limit_line;
mod list_line;
mod list_reply;
mod lock_line;
mod operator_line;
mod read;
mod read_fields;
mod refusal_reply;
mod report_line;
mod show_line;
mod sub_line;
mod submit_line;
mod tick_line;
mod write;

pub use fault_reply::write_bad_store;
pub use laws::replies_are_single_lines;
pub use read::read_request;
pub use report_line::{LaunchText, Launches, WrittenReport, write_launch, write_report_reply};
pub use write::write_reply;
