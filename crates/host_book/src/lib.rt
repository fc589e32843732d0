//! The book of hosts: their boots, when they were heard, and which of them are silent.
#![tactic(auto)]

mod apply;
mod boots;
mod bound;
mod check;
mod copy;
mod hosts;
mod life;
mod restore;
mod spare;
mod walk;

pub use boots::{BootPlan, HeardRefusal, HostRefusal};
pub use hosts::Hosts;
pub use life::HostLife;
pub use spare::HostSpare;
