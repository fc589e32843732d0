//! Which frames would open, once those are known who would be freed.

ghost use Rattle.std.specs.Prelude.{◌≡◌, ◌≤◌, length, nat_eq, IfOk, OnOk};
ghost use Rattle.indexmap.specs.IndexMap.{get};
ghost use Rattle.farm_types.specs.declared.limits.TheConstants.{SLOT_LIMIT};
ghost use Rattle.farm_types.specs.Sums.{total_at};
ghost use Rattle.depend_graph.specs.Trial.{AreOpened, IsFreed};

use crate::trials::over::lower;
use farm_types::{Items, Slot};
use indexmap::IndexMap;
use std::alloc::{AllocError, Global};

/// The slots, in order, of the frames that would wait in no unmet group, where each is freed of one group as often as it is listed.
pub(crate) fn opened_by(
    alloc: Global,
    unmet: &[u32],
    freed: &[Slot],
) -> Result<Items<Slot>, AllocError>
    requires { length unmet.now ≤ SLOT_LIMIT }
    ensures { IfOk result (λ slots. AreOpened unmet.now freed.now slots) }
{
    let mut waiting = IndexMap::new(alloc);
    let mut slots = Vec::new(alloc);
    for slot in freed {
        free(unmet, &mut waiting, &mut slots, *slot)?;
    }
    slots.sort_unstable();
    Ok(Items::from_vec(slots))
}

// The frame would wait in one unmet group fewer, and is listed if it waited in no other.
fn free(
    unmet: &[u32],
    waiting: &mut IndexMap<u64, u32>,
    slots: &mut Vec<Slot>,
    slot: Slot,
) -> Result<(), AllocError>
    ensures { OnOk result (IsFreed slot (total_at unmet.now slot) (get nat_eq waiting.old) (get nat_eq waiting.new) slots.old.items slots.new.items) }
{
    let before = lower(waiting, u64::from(slot.0), unmet_at(unmet, slot))?;
    if before == 1 {
        slots.push(slot)?;
    }
    Ok(())
}

/// How many unmet groups the slot's frame waits in.
pub(crate) fn unmet_at(unmet: &[u32], slot: Slot) -> u32
    ensures { result ≡ total_at unmet.now slot }
{
    match unmet.get(slot.0 as usize) {
        None => 0,
        Some(count) => *count,
    }
}
