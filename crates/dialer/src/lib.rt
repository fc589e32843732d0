//! Connections by address and port, of the programs that call a scheduler.
#![tactic(auto)]

mod dial;
mod memory;
mod network;
mod port;
mod target;

pub use dial::{DialFault, Dialer};
pub use memory::{MemoryDialer, MemoryLink};
pub use network::NetDialer;
pub use port::port_of;
pub use target::target_of;
