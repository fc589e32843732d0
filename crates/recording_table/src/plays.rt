//! What a step of the recorder's seat tells. No value of these types is made.

use atomic_table::Play;
use booking_rule::View;
use std::marker::{Brand, PhantomData};

/// The kind of a step, with its operands. A call picks it.
pub trait Stepping {
    ghost use Rattle.recording_core.specs.Records.{RecorderKind};

    ghost kind: { RecorderKind };
}

impl Stepping for Brand {
    ghost use Rattle.recording_core.specs.Records.RecorderKind.{turns};

    ghost kind = { turns 0 0 };
}

/// A step of the kind that the call picked.
pub struct Stepped<E> {
    of: PhantomData<E>,
}

impl<E: Stepping> Play<(), View> for Stepped<E> {
    ghost use Rattle.recording_table.specs.Steps.{told};

    ghost then = { told E.kind };
}
