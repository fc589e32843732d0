//! What a boot or a report comes to.

use farm_types::{AllocNo, FarmFault, MOST_HOSTS, Refusal};
use std::fmt;

/// What a boot comes to: the boot number that it answers, and the host's allocation.
#[derive(Clone, Copy, Debug, PartialEq, Eq)]
pub enum BootPlan {
    /// A new host.
    New { boot: u32, alloc: AllocNo },
    /// The life of a host that is known.
    Same { boot: u32, alloc: AllocNo },
    /// A new life of a host that is there.
    Again { boot: u32, alloc: AllocNo },
}

/// Why a boot isn't taken.
#[derive(Clone, Copy, Debug, PartialEq, Eq)]
pub enum HostRefusal {
    /// The host is there, with that other allocation.
    OtherAlloc { alloc: AllocNo },
    /// The host is new, and 4,096 are there.
    HostsFull,
    /// The host's boot number is the last, and the nonce is new.
    BootsSpent,
}

impl fmt::Display for HostRefusal {
    fn fmt<W: fmt::Write>(&self, f: &mut fmt::Formatter<W>) -> fmt::Result {
        match self {
            HostRefusal::OtherAlloc { alloc } => {
                write!(f, "the host is there with allocation {}", alloc.0)
            }
            HostRefusal::HostsFull => write!(f, "{MOST_HOSTS} hosts are there"),
            HostRefusal::BootsSpent => write!(f, "the host has its last boot number"),
        }
    }
}

/// Why a report isn't taken.
#[derive(Clone, Copy, Debug, PartialEq, Eq)]
pub enum HeardRefusal {
    /// The host's boot number is another: this one.
    WrongBoot { boot: u32 },
    /// The sequence number isn't above the last one: this one.
    Stale { last: u64 },
}

impl fmt::Display for HeardRefusal {
    fn fmt<W: fmt::Write>(&self, f: &mut fmt::Formatter<W>) -> fmt::Result {
        match self {
            HeardRefusal::WrongBoot { boot } => write!(f, "the host's boot number is {boot}"),
            HeardRefusal::Stale { last } => {
                write!(f, "the host's last sequence number is {last}")
            }
        }
    }
}

impl From<HeardRefusal> for FarmFault {
    ghost use Rattle.std.specs.Prelude.{◌≡◌};
    ghost use Rattle.host_book.specs.Book.{of_heard};

    ghost from_gives = { λ refusal e. e ≡ of_heard refusal };

    fn from(refusal: HeardRefusal) -> FarmFault {
        let why = match refusal {
            HeardRefusal::WrongBoot { boot } => Refusal::WrongBoot { boot },
            HeardRefusal::Stale { last } => Refusal::Stale { last },
        };
        FarmFault::Refused { why }
    }
}
