//! A spawner over child programs, and a rest that sleeps: the edges of the daemon on a machine.
#![tactic(auto)]

mod child;
mod children;
mod exits;
mod faults;
mod group;
mod shell;
mod sleep_rest;

pub use children::ChildSpawner;
pub use sleep_rest::SleepRest;
