//! Workers that share the connections of a listener.
#![tactic(auto)]

mod desk;
mod fault;
mod handler;
mod run;

pub use fault::WorkersFault;
pub use handler::Handler;
pub use run::run_workers;
