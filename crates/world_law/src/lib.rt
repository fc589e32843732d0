//! The world of one scheduler and many render hosts, between which lines are lost, repeated and late: what happens in it, and its laws, over the model alone.
#![tactic(auto)]

mod counted;
mod event;
mod fault;
mod laws;
mod lines;

pub use counted::Counted;
pub use event::Event;
pub use fault::WorldFault;
pub use laws::{
    events_have_one_outcome, events_keep_worlds, made_worlds_are_kept, worlds_are_as_promised,
    worlds_keep_their_promises,
};
pub use lines::{Sent, Told};
