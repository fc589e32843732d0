//! Runs the sessions that files of cases tell.
#![tactic(auto)]

mod case;
mod difference;
mod ended;
mod in_turn;
mod pieces;
mod row_difference;
mod sessions;
mod store;
mod streams_in_turn;
mod told_rows;

pub use sessions::run_sessions;
