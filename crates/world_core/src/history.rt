//! A farm and its completions.

ghost use Rattle.std.specs.Prelude.{◌≡◌, IfOk};

use farm_types::Items;
use line_answers::farm_core::Farm;
use std::alloc::{AllocError, Global};
use std::marker::Model;
use world_law::Counted;

/// A farm, and the completions that changed it on the way to it, in order.
#[derive(Drop)]
pub struct History {
    pub(crate) farm: Farm,
    pub(crate) counted: Items<Counted>,
}

impl Model for History {
    ghost use Rattle.world_law.specs.World as types;

    ghost Value = { types.History };

    ghost view = { λ h. record { farm = h.farm; counted = h.counted } };
}

impl History {
    /// An equal history.
    pub(crate) fn copy(&self, alloc: Global) -> Result<History, AllocError>
        ensures { IfOk result (λ copy. copy ≡ self.now) }
    {
        Ok(History {
            farm: self.farm.copy(alloc)?,
            counted: self.counted.copy(alloc)?,
        })
    }
}
