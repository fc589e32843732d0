//! A group for each waiting frame.

ghost use Rattle.std.specs.Prelude.{◌≡◌, ◌++◌, ◌∷◌, [], ◌+◌, IfOk, OnOk};
ghost use Rattle.std.specs.Ordering.{int_eq};
ghost use Rattle.indexmap.specs.IndexMap.{get};
ghost use Rattle.farm_types.specs.Groups.{group_of, groups_in_step, groups_of_previous};
ghost use Rattle.depend_kinds.specs.Found.{found_or, groups_found};

use farm_types::{Group, Items, Slot};
use indexmap::IndexMap;
use std::alloc::{AllocError, Global};

/// Each frame waits for the one that stands under its number, where there is one.
pub(crate) fn groups_found(
    alloc: Global,
    any: bool,
    numbers: &[i32],
    slots: &[Slot],
    targets: &IndexMap<i32, Slot>,
) -> Result<Items<Group>, AllocError>
    ensures { IfOk result (λ groups. groups ≡ groups_found (λ number. found_or (get int_eq targets.now number) []) 0 any numbers.now slots.now) }
{
    let mut groups = Items::new(alloc);
    let mut position = 0;
    for (number, slot) in numbers.iter().zip(slots) {
        let target = targets.get(number).copied();
        add_found(alloc, &mut groups, position, any, *slot, target)?;
        position = next(position)?;
    }
    Ok(groups)
}

// The group of one waiting frame goes last, where it has a target.
fn add_found(
    alloc: Global,
    groups: &mut Items<Group>,
    position: u32,
    any: bool,
    slot: Slot,
    target: Option<Slot>,
) -> Result<(), AllocError>
    ensures { OnOk result (groups.new ≡ groups.old ++ group_of position any slot (found_or target [])) }
{
    let Some(target) = target else {
        return Ok(());
    };
    groups.push(pair(alloc, position, any, slot, target)?)?;
    Ok(())
}

/// All frames but the first wait, each for the one at the position before its own.
pub(crate) fn groups_of_previous(
    alloc: Global,
    any: bool,
    slots: &[Slot],
    targets: &[Slot],
) -> Result<Items<Group>, AllocError>
    ensures { IfOk result (λ groups. groups ≡ groups_of_previous any slots.now targets.now) }
{
    match slots {
        [] => Ok(Items::new(alloc)),
        [_, later @ ..] => groups_in_step(alloc, any, later, targets),
    }
}

// Each frame, counted from 1, waits for the one at its place among the targets.
fn groups_in_step(
    alloc: Global,
    any: bool,
    slots: &[Slot],
    targets: &[Slot],
) -> Result<Items<Group>, AllocError>
    ensures { IfOk result (λ groups. groups ≡ groups_in_step 1 any slots.now targets.now) }
{
    let mut groups = Items::new(alloc);
    let mut position = 1;
    for (slot, target) in slots.iter().zip(targets) {
        groups.push(pair(alloc, position, any, *slot, *target)?)?;
        position = next(position)?;
    }
    Ok(groups)
}

// The group of one frame that waits for one.
fn pair(
    alloc: Global,
    position: u32,
    any: bool,
    slot: Slot,
    target: Slot,
) -> Result<Group, AllocError>
    ensures { IfOk result (λ group. group ≡ record { position = position; waiters = slot ∷ []; targets = target ∷ []; any = any }) }
{
    Ok(Group {
        position,
        waiters: alone(alloc, slot)?,
        targets: alone(alloc, target)?,
        any,
    })
}

// One slot.
fn alone(alloc: Global, slot: Slot) -> Result<Items<Slot>, AllocError>
    ensures { IfOk result (λ slots. slots ≡ slot ∷ []) }
{
    let mut slots = Items::new(alloc);
    slots.push(slot)?;
    Ok(slots)
}

// The next position. Positions end at 2^32.
fn next(position: u32) -> Result<u32, AllocError>
    ensures { IfOk result (λ next. next ≡ position + 1) }
{
    position.checked_add(1).ok_or(AllocError)
}
