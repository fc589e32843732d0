//! The words of the operator's tool: the request that they make, and the help text.
#![tactic(auto)]

mod asked;
mod commands;
mod depend;
mod fields;
mod fill;
mod floats;
mod help;
mod number;
mod part;
mod reader;
mod spec_object;
mod submit;

pub use asked::{ToolWords, WordsFault};
pub use help::help_text;
pub use reader::read_words;
