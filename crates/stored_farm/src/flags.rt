//! A flag for each slot.

ghost use Rattle.std.specs.Prelude.{◌≡◌, ◌==◌, ◌<◌, ◌||◌, ℕ, false, length, replicate, IfOk};
ghost use Rattle.stored_farm.specs.Ends.{is_set};
ghost use Rattle.stored_farm.specs.SelfWaits.{is_among};

use farm_types::Slot;
use std::alloc::{AllocError, Global};

/// A flag for each of so many slots, with none set.
pub(crate) fn no_flags(alloc: Global, count: usize) -> Result<Vec<bool>, AllocError>
    ensures { IfOk result (λ flags. flags.items ≡ replicate count false) }
{
    Ok(vec![in alloc; false; count]?)
}

/// Sets the flags of the slots. A slot that has none is left out.
pub(crate) fn set_all(flags: &mut Vec<bool>, slots: &[Slot])
    ensures flags { (slot : ℕ) → slot < length flags.old.items → is_set flags.new.items slot ≡ (is_set flags.old.items slot || is_among slots.now slot) }
    ensures count { length flags.new.items ≡ length flags.old.items }
{
    for slot in slots {
        set_one(flags, *slot);
    }
}

// Sets the flag of one slot.
fn set_one(flags: &mut Vec<bool>, slot: Slot)
    ensures flags { (other : ℕ) → other < length flags.old.items → is_set flags.new.items other ≡ (is_set flags.old.items other || slot == other) }
    ensures count { length flags.new.items ≡ length flags.old.items }
{
    let place = slot.0 as usize;
    if place < flags.len() {
        flags[place] = true;
    }
}

/// Whether the slot's flag is set.
pub(crate) fn is_set(flags: &[bool], slot: usize) -> bool
    ensures { result ≡ is_set flags.now slot }
{
    match flags.get(slot) {
        None => false,
        Some(flag) => *flag,
    }
}
