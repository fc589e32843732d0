//! Tables as text.
#![tactic(auto)]

mod columns;
mod lines;
mod widths;

pub use columns::table;
