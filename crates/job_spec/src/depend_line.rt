//! Reading depends: the request for one, and those of a spec.

ghost use Rattle.std.specs.Prelude.{[]};
ghost use Rattle.cue_json.specs.View.{members_view};
ghost use Rattle.cue_json.specs.Fields.{Gives};
ghost use Rattle.farm_lines.specs.DependLines.{depend_at, frame_if, layer_if, own_depend_at, own_depends, target_at, waiter_at};
ghost use Rattle.farm_lines.specs.Fields.{or_default};

use crate::defaults;
use crate::depend_keys::{no_others, no_others_in_spec};
use cue_json::{FieldFault, ItemReader, Map};
use farm_lines::{LEAST_FRAME, MOST_FRAME, read_list, read_name};
use farm_types::{DependKind, DependSpec, Items, Place, Text};
use state_names::{names_frame, names_layer, names_target_frame, names_target_layer, read_word};
use std::alloc::Global;

/// The depend that the object of a request asks for, or its first fault: the kind, whether any target is enough, the job that
/// waits and the one that it waits for, each with the layer and the frame that the kind names, and no other keys but `op`.
#[tactic(auto, unfolding(farm_lines::specs::DependLines::depend_at))]
pub fn read_depend(alloc: Global, object: &Map) -> Result<DependSpec, FieldFault>
    ensures { Gives (λ depend. depend) result (depend_at (members_view object.now.items)) }
{
    let kind = read_word(alloc, object, "kind")?;
    let any = defaults::flag(alloc, object, "any")?;
    let job = read_name(alloc, object, "job")?;
    let waiter = read_waiter(alloc, object, job, kind)?;
    let on_job = read_name(alloc, object, "on_job")?;
    let target = read_target(alloc, object, on_job, kind)?;
    no_others(alloc, object, kind)?;
    Ok(DependSpec {
        kind,
        any,
        waiter,
        target,
    })
}

/// The depends in the field's list, in order, or none where it is left out. In each of them the job of that name waits, and where no other
/// job is named, it waits for itself.
pub fn read_depends(
    alloc: Global,
    object: &Map,
    field: &str,
    own: &Text,
) -> Result<Items<DependSpec>, FieldFault>
    ensures { Gives (λ depends. depends) result (or_default [] (own_depends own.now) field.now (members_view object.now.items)) }
{
    if cue_json::has(object, field) {
        read_list(alloc, object, field, &OwnReader { own })
    } else {
        Ok(Items::new(alloc))
    }
}

// Reads a depend in the spec of that job: its fields in order, and no others.
#[derive(Debug, Drop)]
struct OwnReader<'a> {
    own: &'a Text,
}

impl<'a> ItemReader for OwnReader<'a> {
    type Item = DependSpec;

    ghost reads = { λ reader. own_depend_at reader.own.now };

    #[tactic(auto, unfolding(farm_lines::specs::DependLines::own_depend_at))]
    fn read(&self, alloc: Global, object: &Map) -> Result<DependSpec, FieldFault> {
        let kind = read_word(alloc, object, "kind")?;
        let any = defaults::flag(alloc, object, "any")?;
        let waiter = read_waiter(alloc, object, self.own.copy(alloc)?, kind)?;
        let on_job = defaults::job(alloc, object, "on_job", self.own)?;
        let target = read_target(alloc, object, on_job, kind)?;
        no_others_in_spec(alloc, object, kind)?;
        Ok(DependSpec {
            kind,
            any,
            waiter,
            target,
        })
    }
}

// The end of that job that waits.
#[tactic(auto, unfolding(farm_lines::specs::DependLines::waiter_at))]
fn read_waiter(
    alloc: Global,
    object: &Map,
    job: Text,
    kind: DependKind,
) -> Result<Place, FieldFault>
    ensures { Gives (λ place. place) result (waiter_at job kind (members_view object.now.items)) }
{
    let layer = read_layer(alloc, object, "layer", names_layer(kind))?;
    let frame = read_frame(alloc, object, "frame", names_frame(kind))?;
    Ok(Place { job, layer, frame })
}

// The end of that job that is waited for.
#[tactic(auto, unfolding(farm_lines::specs::DependLines::target_at))]
fn read_target(
    alloc: Global,
    object: &Map,
    job: Text,
    kind: DependKind,
) -> Result<Place, FieldFault>
    ensures { Gives (λ place. place) result (target_at job kind (members_view object.now.items)) }
{
    let layer = read_layer(alloc, object, "on_layer", names_target_layer(kind))?;
    let frame = read_frame(alloc, object, "on_frame", names_target_frame(kind))?;
    Ok(Place { job, layer, frame })
}

// The layer's name in the field, where one is named.
fn read_layer(
    alloc: Global,
    object: &Map,
    field: &str,
    is_named: bool,
) -> Result<Option<Text>, FieldFault>
    ensures { Gives (λ layer. layer) result (layer_if is_named field.now (members_view object.now.items)) }
{
    if is_named {
        Ok(Some(read_name(alloc, object, field)?))
    } else {
        Ok(None)
    }
}

// The frame's number in the field, where one is named.
fn read_frame(
    alloc: Global,
    object: &Map,
    field: &str,
    is_named: bool,
) -> Result<Option<i32>, FieldFault>
    ensures { Gives (λ frame. frame) result (frame_if is_named field.now (members_view object.now.items)) }
{
    if is_named {
        let number = cue_json::signed(alloc, object, field, LEAST_FRAME, MOST_FRAME)?;
        Ok(Some(number as i32))
    } else {
        Ok(None)
    }
}
