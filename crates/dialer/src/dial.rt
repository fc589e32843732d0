//! What connects.

use cue_io::{Sink, Source};
use std::alloc::AllocError;

/// Why there is no connection.
#[derive(Clone, Copy, Debug, PartialEq, Eq)]
pub enum DialFault {
    /// Nothing answered at the place.
    Failed,
    /// Memory ran out.
    NoMemory,
}

impl From<AllocError> for DialFault {
    ghost use Rattle.std.specs.Prelude.{◌≡◌};
    ghost use Rattle.dialer.specs.declared.dial.DialFault.TheVariants.{NoMemory};

    ghost from_gives = { λ _ e. e ≡ NoMemory };

    fn from(_: AllocError) -> DialFault {
        DialFault::NoMemory
    }
}

/// What connects to a place by its address and port. Where it can, it tells the connections that it was asked for, and what came of that, without those for
/// which it found no memory. A connection is a source and a sink, each with what it tells, and with its count of faults.
pub trait Dialer {
    ghost use Rattle.std.specs.Prelude.{List, Option};
    ghost use Rattle.cue_io.specs.Growth.{Grows};
    ghost use Rattle.dialer.specs.Dials.{Dial, came_by, dial_told, place_at};

    type In: Source + Drop;

    type Out: Sink + Drop;

    ghost dialled: { Self → Option (List Dial) };

    fn dial(&mut self, address: &str, port: u16) -> Result<(Self::In, Self::Out), DialFault>
        ensures { Grows (dialled self.old) (dialled self.new)
            (dial_told (place_at address.now port) (came_by Self.In.left Self.In.faults Self.Out.written Self.Out.faults result)) };
}
