//! What a line asks.

use crate::query::Query;
use crate::report::Report;
use farm_types::{BootLine, DependNo, DependSpec, FramePlace, JobSpec, LockState, SubLine, Text};
use frame_range::RangeFault;
use std::alloc::AllocError;
use std::fmt;

/// What a line asks: that a show or an allocation be added, a subscription or a limit set, a host's boot or report taken, a host
/// locked or opened, a job submitted, paused, resumed or killed, a depend added or dropped, a frame killed, eaten or retried, that time be
/// seen to have passed, or that a list be shown.
#[derive(Debug, Drop)]
pub enum Request {
    Show { name: Text },
    Alloc { facility: Text, tag: Text },
    Sub(SubLine),
    Limit { name: Text, most: u32 },
    Boot(BootLine),
    Report(Report),
    Lock { host: Text, lock: LockState },
    Submit(JobSpec),
    Depend(DependSpec),
    Drop { depend: DependNo },
    Pause { job: Text, paused: bool },
    KillJob { job: Text },
    KillFrame(FramePlace),
    EatFrame(FramePlace),
    RetryFrame(FramePlace),
    Tick,
    List(Query),
}

/// Why a line is malformed, or asks for what is outside the limits: its first fault.
#[derive(Debug, Drop)]
pub enum RequestFault {
    /// The field of that name is at fault, or the whole line, with the empty name.
    BadLine { field: Text },
    /// The range of the layer of that name has a fault.
    BadRange { layer: Text, fault: RangeFault },
    /// The amount, or the length, of that field is outside its limits.
    BadAmount { field: Text },
    /// Memory ran out.
    NoMemory,
}

impl fmt::Display for RequestFault {
    fn fmt<W: fmt::Write>(&self, f: &mut fmt::Formatter<W>) -> fmt::Result {
        match self {
            RequestFault::BadLine { field } => {
                write!(f, "malformed line at field `{}`", field.as_str())
            }
            RequestFault::BadRange { layer, fault } => {
                write!(f, "malformed range of layer `{}`: {fault}", layer.as_str())
            }
            RequestFault::BadAmount { field } => {
                write!(f, "field `{}` is outside its limits", field.as_str())
            }
            RequestFault::NoMemory => write!(f, "out of memory"),
        }
    }
}

impl From<AllocError> for RequestFault {
    ghost use Rattle.std.specs.Prelude.{◌≡◌};
    ghost use Rattle.farm_lines.specs.declared.request.RequestFault.TheVariants.{NoMemory};

    ghost from_gives = { λ _ e. e ≡ NoMemory };

    fn from(_: AllocError) -> RequestFault {
        RequestFault::NoMemory
    }
}
