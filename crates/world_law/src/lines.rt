//! Lines that were sent.

use farm_types::{Items, Text};

/// A line to the scheduler, without a newline, and the number of the host that sent it. An operator's line has none.
#[derive(Debug, Drop)]
pub struct Sent {
    pub host: Option<u32>,
    pub line: Text,
}

/// The bytes of a line to a host, without a newline.
#[derive(Debug, Drop)]
pub struct Told {
    pub host: u32,
    pub line: Items<u8>,
}
