//! The operator's tool: one request by its words, and its reply.
#![tactic(auto)]

mod cells;
mod disk_files;
mod listing;
mod program;
mod row;
mod run;
mod shown;

pub use disk_files::DiskFiles;
pub use program::{SpecFault, SpecFiles, run_program};
pub use run::run_cue;
