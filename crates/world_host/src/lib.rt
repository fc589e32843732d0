//! A render host of a lossy world: the present life of its daemon, the nonces that it has used, and what this life was
//! told to start.
#![tactic(auto)]

mod config;
mod host;
mod starts;

pub use config::copy_config;
pub use host::Host;
