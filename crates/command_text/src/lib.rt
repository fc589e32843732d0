//! Names of frames, and commands with their tokens replaced.
#![tactic(auto)]

mod expansion;
mod frame_names;
mod laws;
mod token;

pub use expansion::expand;
pub use frame_names::frame_name;
pub use laws::expanded_commands_are_texts;
