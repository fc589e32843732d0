//! The versions of slots, as an act leaves them.

ghost use Rattle.std.specs.Prelude.{◌≡◌, ℕ, IfOk, OnOk, Some, nat_eq, slice_get, if◌then◌else◌};
ghost use Rattle.indexmap.specs.IndexMap.{get};
ghost use Rattle.farm_finish.specs.Versions.{AreLaid, AreSet, version_or};

use farm_draft::SlotChange;
use farm_types::{Slot, Version};
use indexmap::IndexMap;
use job_book::Jobs;
use std::alloc::{AllocError, Global};

/// The versions that the rows give their slots.
pub(crate) fn versions_of(
    alloc: Global,
    book: &Jobs,
    rows: &[SlotChange],
) -> Result<IndexMap<u32, Version>, AllocError>
    requires { AreSet book.now.slots rows.now }
    ensures { IfOk result (λ versions. AreLaid book.now.slots rows.now (get nat_eq versions)) }
{
    let _slots = book.slots();
    let mut versions = IndexMap::new(alloc);
    for change in rows {
        lay(&mut versions, change.slot.0, change.row.version)?;
    }
    Ok(versions)
}

// The slot has that version from now on.
fn lay(versions: &mut IndexMap<u32, Version>, slot: u32, version: Version) -> Result<(), AllocError>
    ensures { OnOk result ((n : ℕ) → get nat_eq versions.new n ≡ (if nat_eq n slot then Some version else get nat_eq versions.old n)) }
{
    versions.insert(slot, version)?;
    Ok(())
}

/// The version that was laid for the slot, or the book's.
pub(crate) fn version_of(book: &Jobs, versions: &IndexMap<u32, Version>, slot: Slot) -> Version
    ensures { result ≡ version_or (get nat_eq versions.now slot) (slice_get book.now.slots slot) }
{
    match versions.get(&slot.0) {
        Some(version) => *version,
        None => book.state(slot).1,
    }
}
