//! The groups of a depend, read from the shapes of its jobs.

ghost use Rattle.std.specs.Prelude.{◌≡◌, ◌∷◌, [], IfOk};
ghost use Rattle.farm_types.specs.Groups.{groups_by, groups_by_number, groups_of_previous, layer_named_by, part_of, slots_at};

use crate::layer::{layer_numbers, layer_slots};
use crate::numbered::slots_by_number;
use crate::pairs::{groups_found, groups_of_previous};
use crate::parts::slots_at;
use farm_types::{DependKind, DependSpec, Group, Items, Shape};
use std::alloc::{AllocError, Global};

/// The groups of a depend: who waits, in the shape of the waiting job, and for whom, in the shape of the other. A layer that isn't there has no frames.
/// The only error is that memory ran out, or that a layer has 2^32 frames or more, which no job's has.
pub fn groups(
    alloc: Global,
    depend: &DependSpec,
    waiter: &Shape,
    target: &Shape,
) -> Result<Items<Group>, AllocError>
    ensures { IfOk result (λ groups. groups ≡ groups_by depend.now.kind depend.now.any
        (part_of depend.now.waiter) (part_of depend.now.target) waiter.now target.now) }
{
    match depend.kind {
        DependKind::FrameByFrame => frame_by_frame(alloc, depend, waiter, target),
        DependKind::PreviousFrame => previous_frame(alloc, depend, waiter, target),
        DependKind::JobOnJob
        | DependKind::JobOnLayer
        | DependKind::JobOnFrame
        | DependKind::LayerOnJob
        | DependKind::LayerOnLayer
        | DependKind::LayerOnFrame
        | DependKind::FrameOnJob
        | DependKind::FrameOnLayer
        | DependKind::FrameOnFrame => one_group(alloc, depend, waiter, target),
    }
}

// Each frame of the layer waits for the one of its number in the target layer.
fn frame_by_frame(
    alloc: Global,
    depend: &DependSpec,
    waiter: &Shape,
    target: &Shape,
) -> Result<Items<Group>, AllocError>
    ensures { IfOk result (λ groups. groups ≡ groups_by_number 0 depend.now.any
        (layer_named_by waiter.now (part_of depend.now.waiter)).numbers (layer_named_by waiter.now (part_of depend.now.waiter)).slots
        (layer_named_by target.now (part_of depend.now.target))) }
{
    let targets = slots_by_number(
        alloc,
        layer_numbers(target, &depend.target),
        layer_slots(target, &depend.target),
    )?;
    groups_found(
        alloc,
        depend.any,
        layer_numbers(waiter, &depend.waiter),
        layer_slots(waiter, &depend.waiter),
        &targets,
    )
}

// Each frame of the layer waits for the one at the position before its own in the target layer.
fn previous_frame(
    alloc: Global,
    depend: &DependSpec,
    waiter: &Shape,
    target: &Shape,
) -> Result<Items<Group>, AllocError>
    ensures { IfOk result (λ groups. groups ≡ groups_of_previous depend.now.any
        (layer_named_by waiter.now (part_of depend.now.waiter)).slots (layer_named_by target.now (part_of depend.now.target)).slots) }
{
    groups_of_previous(
        alloc,
        depend.any,
        layer_slots(waiter, &depend.waiter),
        layer_slots(target, &depend.target),
    )
}

// All frames of the one end wait for all of the other, in one group.
fn one_group(
    alloc: Global,
    depend: &DependSpec,
    waiter: &Shape,
    target: &Shape,
) -> Result<Items<Group>, AllocError>
    ensures { IfOk result (λ groups. groups ≡ record {
      position = 0;
      waiters = slots_at waiter.now (part_of depend.now.waiter);
      targets = slots_at target.now (part_of depend.now.target);
      any = depend.now.any;
    } ∷ []) }
{
    let mut groups = Items::new(alloc);
    groups.push(Group {
        position: 0,
        waiters: slots_at(alloc, waiter, &depend.waiter)?,
        targets: slots_at(alloc, target, &depend.target)?,
        any: depend.any,
    })?;
    Ok(groups)
}
