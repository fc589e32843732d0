//! The command line of the programs: the words that one is run with, and the status that it ends with.
#![tactic(auto)]

mod exit;
mod status;
mod words;

pub use exit::exit_code;
pub use status::Status;
pub use words::words_of;
