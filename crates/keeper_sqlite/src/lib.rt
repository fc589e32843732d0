//! A keeper of rows over SQLite.
#![tactic(auto)]

mod batches;
mod opening;
mod reading;
mod schema_test;
mod sqlite_keeper;
mod statements;

pub use sqlite_keeper::SqliteKeeper;
