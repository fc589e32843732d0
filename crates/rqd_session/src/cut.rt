//! Why a round was cut off.

use std::alloc::AllocError;

/// A failed read, a failed write, no memory, all bytes of a call taken with no whole line left, or the end of the input while a reply was awaited.
#[derive(Clone, Copy, Debug, PartialEq, Eq)]
pub(crate) enum Cut {
    Read,
    Write,
    NoMemory,
    Spent,
    End,
}

impl From<AllocError> for Cut {
    ghost use Rattle.std.specs.Prelude.{◌≡◌};
    ghost use Rattle.rqd_session.specs.declared.cut.Cut.TheVariants.{NoMemory};

    ghost from_gives = { λ _ e. e ≡ NoMemory };

    fn from(_: AllocError) -> Cut {
        Cut::NoMemory
    }
}
