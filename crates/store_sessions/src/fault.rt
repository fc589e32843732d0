//! Why a stop isn't as it has to be.

use std::alloc::{AllocError, Global};
use std::{fmt, io};

/// Why a run of sessions ended early: what a stop left is wrong, as the text says, a disk that isn't to stop failed, or memory ran out.
#[derive(Drop)]
pub enum Fault {
    Wrong { why: String },
    Disk,
    NoMemory,
}

/// That something is wrong.
pub fn wrong(alloc: Global, why: &str) -> Fault {
    match String::from_str(alloc, why) {
        Ok(why) => Fault::Wrong { why },
        Err(_) => Fault::NoMemory,
    }
}

impl From<AllocError> for Fault {
    fn from(_: AllocError) -> Fault {
        Fault::NoMemory
    }
}

impl From<io::Error> for Fault {
    fn from(_: io::Error) -> Fault {
        Fault::Disk
    }
}

impl fmt::Display for Fault {
    fn fmt<W: fmt::Write>(&self, f: &mut fmt::Formatter<W>) -> fmt::Result {
        match self {
            Fault::Wrong { why } => f.write_str(why.as_str()),
            Fault::Disk => f.write_str("a disk failed that wasn't to stop"),
            Fault::NoMemory => f.write_str("out of memory"),
        }
    }
}
