//! Why a frame may not be booked on a host.

ghost use Rattle.std.specs.Prelude.{ℕ, ◌≡◌, is_none};
ghost use Rattle.farm_types.specs.Booking.{may_record};
ghost use Rattle.farm_types.specs.Farm.{Farm};
ghost use Rattle.booking_reasons.specs.WhyNot.{why_not_record};

use std::fmt;

/// Why the booking of a slot's frame on a host may not be recorded: the first of what the rules ask that isn't so (`why_not_record` of
/// `specs/WhyNot.antt`), in this order. In a farm that keeps what every farm keeps, each frame has its job and its layer.
#[derive(Clone, Copy, Debug, PartialEq, Eq)]
pub enum NotBooked {
    /// No frame is in the slot.
    NoFrame,
    /// The frame doesn't wait.
    NotWaiting,
    /// The frame's job isn't there.
    NoJob,
    /// The frame's layer isn't there.
    NoLayer,
    /// The host isn't there.
    NoHost,
    /// The slot is at the last version.
    VersionSpent,
    /// The job is finished.
    JobFinished,
    /// The job is paused.
    JobPaused,
    /// The frame waits for others.
    NotOpen,
    /// The job is of another facility than the host's allocation.
    OtherFacility,
    /// The host is down, or locked.
    HostClosed,
    /// The host has too few cores left for the layer, or too little memory.
    NoCapacity,
    /// The subscription isn't there, or its burst is passed.
    PastBurst,
    /// As many frames run in the layer's limit as may, or the limit isn't there.
    AtLimit,
}

impl fmt::Display for NotBooked {
    fn fmt<W: fmt::Write>(&self, f: &mut fmt::Formatter<W>) -> fmt::Result {
        match self {
            NotBooked::NoFrame => write!(f, "no frame is in the slot"),
            NotBooked::NotWaiting => write!(f, "the frame doesn't wait"),
            NotBooked::NoJob => write!(f, "the frame's job isn't there"),
            NotBooked::NoLayer => write!(f, "the frame's layer isn't there"),
            NotBooked::NoHost => write!(f, "the host isn't there"),
            NotBooked::VersionSpent => write!(f, "the slot is at its last version"),
            NotBooked::JobFinished => write!(f, "the job is finished"),
            NotBooked::JobPaused => write!(f, "the job is paused"),
            NotBooked::NotOpen => write!(f, "the frame waits for others"),
            NotBooked::OtherFacility => write!(f, "the job is of another facility"),
            NotBooked::HostClosed => write!(f, "the host is down or locked"),
            NotBooked::NoCapacity => write!(f, "the host has no room for the layer"),
            NotBooked::PastBurst => write!(f, "the subscription's burst is passed"),
            NotBooked::AtLimit => write!(f, "the layer's limit is reached"),
        }
    }
}

/// There is a reason why a booking may not be recorded exactly where it may not be.
pub fn reasons_are_exact()
    ensures { (f : Farm) (slot host : ℕ) → is_none (why_not_record f slot host) ≡ may_record f slot host }
{}
