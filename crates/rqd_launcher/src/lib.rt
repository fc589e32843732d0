//! What carries out the orders of RQD: spawners, which start, poll and stop attempts, and what RQD is told of that.
#![tactic(auto)]

mod call;
mod carry;
mod memory_spawner;
mod polls;
mod rest;
mod spawner;

pub use call::{SpawnAnswer, SpawnCall, SpawnTask};
pub use carry::carry_out;
pub use memory_spawner::MemorySpawner;
pub use polls::poll_all;
pub use rest::Rest;
pub use spawner::{SpawnFault, Spawner};
