//! Lists that are no longer than a limit.

ghost use Rattle.cue_json.specs.Fields.{Gives};
ghost use Rattle.farm_lines.specs.ReplyLines.{at_most};

use cue_json::FieldFault;
use farm_types::Items;
use std::alloc::Global;

/// The items, where there are at most so many, else `WrongKind` with the list's `field`.
pub fn at_most<T: Drop>(
    alloc: Global,
    most: u32,
    field: &str,
    items: Items<T>,
) -> Result<Items<T>, FieldFault>
    ensures { Gives (λ items. items) result (at_most most field.now items) }
{
    if items.len() <= most as usize {
        Ok(items)
    } else {
        Err(FieldFault::wrong_kind(alloc, field))
    }
}
