//! Connections that come in, of the programs that answer callers.
#![tactic(auto)]

mod accept;
mod memory;
mod network;

pub use accept::{AcceptFault, Listener};
pub use memory::MemoryListener;
pub use network::NetListener;
