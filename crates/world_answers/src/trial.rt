//! What a line comes to.

use farm_types::{DoneItem, Entry, Items};
use line_answers::farm_core::Farm;
use std::alloc::AllocError;

/// The farm that a refused commit would have made, and the completions that changed it on the way.
#[derive(Drop)]
pub struct Further {
    pub farm: Farm,
    pub ends: Items<DoneItem>,
}

/// What a line comes to: the farm, the entries that were recorded, the completions that changed the farm, whether a row was changed, the text of the reply,
/// and what the refused commit would have made.
#[derive(Drop)]
pub struct Trial {
    pub farm: Farm,
    pub entries: Items<Entry>,
    pub ends: Items<DoneItem>,
    pub stored: bool,
    pub reply: Items<u8>,
    pub further: Option<Further>,
}

/// Why a line comes to nothing.
#[derive(Clone, Copy, Debug, PartialEq, Eq)]
pub enum TrialFault {
    /// The line has no commit of that number.
    NoSuch,
    /// Memory ran out.
    NoMemory,
}

impl From<AllocError> for TrialFault {
    ghost use Rattle.std.specs.Prelude.{◌≡◌};
    ghost use Rattle.world_answers.specs.declared.trial.TrialFault.TheVariants.{NoMemory};

    ghost from_gives = { λ _ e. e ≡ NoMemory };

    fn from(_: AllocError) -> TrialFault {
        TrialFault::NoMemory
    }
}
