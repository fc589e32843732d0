//! The daemon's call over any source, sink and spawner: its words, its rounds, and its whole work with a connection.
#![tactic(auto)]

mod cut;
mod program;
mod round;
mod run;
mod words;

pub use program::run_program;
pub use run::run_rqd;
