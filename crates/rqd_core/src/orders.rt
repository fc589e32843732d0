//! What a reply comes to.

use farm_lines::Launch;
use farm_types::{Attempt, Cores, Items};
use std::alloc::AllocError;
use std::fmt;

/// A launch that wasn't started, and the cores (hundredths of a core) that were free at its turn.
#[derive(Clone, Copy, Debug, PartialEq, Eq)]
pub struct NoFit {
    pub attempt: Attempt,
    pub free: Cores,
}

/// What a reply orders: the attempts to start, the running attempts to stop, and the launches that didn't fit, each in the reply's order.
#[derive(Debug, Drop)]
pub struct Orders {
    pub starts: Items<Launch>,
    pub stops: Items<Attempt>,
    pub refused: Items<NoFit>,
}

/// Why a line gives no orders.
#[derive(Clone, Copy, Debug, PartialEq, Eq)]
pub enum RqdFault {
    /// The line is no reply.
    NotAReply,
    /// It is no first reply to the latest line. The sequence number is the one that it shows, 0 where it shows none.
    NotLatest { seq: u64 },
    /// The latest line is refused, with this code.
    Refused { code: u32 },
    /// Memory ran out.
    NoMemory,
}

impl fmt::Display for RqdFault {
    fn fmt<W: fmt::Write>(&self, f: &mut fmt::Formatter<W>) -> fmt::Result {
        match self {
            RqdFault::NotAReply => write!(f, "not a reply"),
            RqdFault::NotLatest { seq } => write!(f, "no first reply to the latest line: {seq}"),
            RqdFault::Refused { code } => write!(f, "refused with code {code}"),
            RqdFault::NoMemory => write!(f, "out of memory"),
        }
    }
}

impl From<AllocError> for RqdFault {
    ghost use Rattle.std.specs.Prelude.{◌≡◌};
    ghost use Rattle.rqd_core.specs.declared.orders.RqdFault.TheVariants.{NoMemory};

    ghost from_gives = { λ _ e. e ≡ NoMemory };

    fn from(_: AllocError) -> RqdFault {
        RqdFault::NoMemory
    }
}
