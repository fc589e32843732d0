//! The lossy world: one scheduler and many render hosts, between which lines are lost, repeated and late, over the
//! calls that the programs run.
#![tactic(auto)]

mod answering;
mod history;
mod lives;
mod naming;
mod of_types;
mod parts;
mod restarting;
mod run;
mod stepping;
mod world;

pub use run::run_world;
pub use world::World;
