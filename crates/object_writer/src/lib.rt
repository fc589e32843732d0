//! Writing JSON objects in compact text, a member at a time.
#![tactic(auto)]

mod put;
mod text;
mod writer;

pub use writer::ObjectWriter;
