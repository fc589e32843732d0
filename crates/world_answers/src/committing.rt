//! A farm that takes an entry.

ghost use Rattle.std.specs.Prelude.{◌≡◌, OnErr, OnOk};
ghost use Rattle.farm_types.specs.Formed.{IsFormed};
ghost use Rattle.farm_types.specs.Step.{HasCondition};
ghost use Rattle.line_answers.specs.farm_core.specs.Change.{IsReady, IsUnreserved, after_change};
ghost use Rattle.world_answers.specs.Committing.{Commits};

use farm_types::{Entry, FarmFault};
use line_answers::farm_core::{Change, Farm};
use std::alloc::{AllocError, Global};

/// The farm takes an entry, or refuses it. Where memory runs out it is as before.
pub fn commit(alloc: Global, farm: &mut Farm, entry: &Entry) -> Result<(), FarmFault>
    requires condition { HasCondition farm.old entry.now.act }
    requires formed { IsFormed entry.now }
    ensures { Commits farm.old entry.now result farm.new }
{
    let change = farm.prepare(alloc, entry)?;
    Ok(apply(alloc, farm, change)?)
}

/// Takes the memory of a change, and applies it.
pub(crate) fn apply(alloc: Global, farm: &mut Farm, change: Change) -> Result<(), AllocError>
    requires ready { IsReady farm.old change }
    requires unreserved { IsUnreserved change }
    ensures ok { OnOk result (farm.new ≡ after_change farm.old change) }
    ensures err { OnErr result (farm.new ≡ farm.old) }
{
    let mut change = change;
    match farm.reserve(alloc, &mut change) {
        Ok(()) => {
            farm.apply(change);
            Ok(())
        }
        Err(_) => {
            drop(change);
            Err(AllocError)
        }
    }
}
