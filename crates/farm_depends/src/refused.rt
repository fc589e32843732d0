//! Refusals that name something.

ghost use Rattle.std.specs.Prelude.{◌≡◌};
ghost use Rattle.farm_types.specs.declared.refusal.Refusal.TheVariants.{SelfDepend, Started};
ghost use Rattle.farm_types.specs.Faults.{IsRefusal};

use farm_types::{FarmFault, Refusal, Text};

/// That the frame of that name would wait for itself.
pub(crate) fn self_depend(frame: Text) -> FarmFault
    ensures { IsRefusal (SelfDepend frame) result }
{
    FarmFault::Refused {
        why: Refusal::SelfDepend { frame },
    }
}

/// That the frame of that name runs already.
pub(crate) fn started(frame: Text) -> FarmFault
    ensures { IsRefusal (Started frame) result }
{
    FarmFault::Refused {
        why: Refusal::Started { frame },
    }
}
