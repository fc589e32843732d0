//! Frames that are found by their numbers.

ghost use Rattle.std.specs.Prelude.{◌≡◌, ℤ, ℕ, List, [], ◌∷◌, if◌then◌else◌, IfOk, OnOk};
ghost use Rattle.std.specs.Ordering.{int_eq};
ghost use Rattle.indexmap.specs.IndexMap.{get};
ghost use Rattle.farm_types.specs.Groups.{slot_numbered};
ghost use Rattle.depend_kinds.specs.Found.{found_or};

use farm_types::Slot;
use indexmap::IndexMap;
use std::alloc::{AllocError, Global};

/// The slot of the first frame of that number.
pub(crate) fn slot_numbered(number: i32, numbers: &[i32], slots: &[Slot]) -> Option<Slot>
    ensures { found_or result [] ≡ slot_numbered number numbers.now slots.now }
{
    for (other, slot) in numbers.iter().zip(slots) {
        if *other == number {
            return Some(*slot);
        }
    }
    None
}

/// The slots of the frames by number. Of equal numbers the first counts.
pub(crate) fn slots_by_number(
    alloc: Global,
    numbers: &[i32],
    slots: &[Slot],
) -> Result<IndexMap<i32, Slot>, AllocError>
    ensures { IfOk result (λ by_number. (number : ℤ) → found_or (get int_eq by_number number) [] ≡ slot_numbered number numbers.now slots.now) }
{
    let mut by_number = IndexMap::new(alloc);
    for (number, slot) in numbers.iter().zip(slots) {
        add_first(&mut by_number, *number, *slot)?;
    }
    Ok(by_number)
}

// The slot goes under a number that has none yet.
fn add_first(by_number: &mut IndexMap<i32, Slot>, number: i32, slot: Slot) -> Result<(), AllocError>
    ensures { OnOk result ((other : ℤ) (later : List ℕ) → found_or (get int_eq by_number.new other) later
        ≡ found_or (get int_eq by_number.old other) (if int_eq number other then slot ∷ [] else later)) }
{
    if by_number.contains_key(&number) {
        return Ok(());
    }
    by_number.insert(number, slot)?;
    Ok(())
}
