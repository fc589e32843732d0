//! The keys of each kind of depend.

ghost use Rattle.cue_json.specs.View.{members_view};
ghost use Rattle.cue_json.specs.Fields.{Gives, others_at};
ghost use Rattle.farm_lines.specs.DependLines.{depend_keys, own_keys};

use cue_json::{FieldFault, Map};
use farm_types::DependKind;
use std::alloc::Global;

/// Nothing where the object of a request has no other keys than those of a depend of that kind.
pub fn no_others(alloc: Global, object: &Map, kind: DependKind) -> Result<(), FieldFault>
    ensures { Gives (λ none. none) result (others_at (depend_keys kind) (members_view object.now.items)) }
{
    match kind {
        DependKind::JobOnJob => {
            cue_json::no_others(alloc, object, &["job", "op", "any", "kind", "on_job"])
        }
        DependKind::JobOnLayer => cue_json::no_others(
            alloc,
            object,
            &["job", "op", "any", "kind", "on_job", "on_layer"],
        ),
        DependKind::JobOnFrame => cue_json::no_others(
            alloc,
            object,
            &["job", "op", "any", "kind", "on_job", "on_layer", "on_frame"],
        ),
        DependKind::LayerOnJob => cue_json::no_others(
            alloc,
            object,
            &["job", "op", "any", "kind", "on_job", "layer"],
        ),
        DependKind::LayerOnLayer | DependKind::FrameByFrame | DependKind::PreviousFrame => {
            cue_json::no_others(
                alloc,
                object,
                &["job", "op", "any", "kind", "on_job", "layer", "on_layer"],
            )
        }
        DependKind::LayerOnFrame => cue_json::no_others(
            alloc,
            object,
            &[
                "job", "op", "any", "kind", "on_job", "layer", "on_layer", "on_frame",
            ],
        ),
        DependKind::FrameOnJob => cue_json::no_others(
            alloc,
            object,
            &["job", "op", "any", "kind", "on_job", "layer", "frame"],
        ),
        DependKind::FrameOnLayer => cue_json::no_others(
            alloc,
            object,
            &[
                "job", "op", "any", "kind", "on_job", "layer", "frame", "on_layer",
            ],
        ),
        DependKind::FrameOnFrame => cue_json::no_others(
            alloc,
            object,
            &[
                "job", "op", "any", "kind", "on_job", "layer", "frame", "on_layer", "on_frame",
            ],
        ),
    }
}

/// The same of a depend in a spec, where the job that waits is no field.
pub fn no_others_in_spec(alloc: Global, object: &Map, kind: DependKind) -> Result<(), FieldFault>
    ensures { Gives (λ none. none) result (others_at (own_keys kind) (members_view object.now.items)) }
{
    match kind {
        DependKind::JobOnJob => cue_json::no_others(alloc, object, &["any", "kind", "on_job"]),
        DependKind::JobOnLayer => {
            cue_json::no_others(alloc, object, &["any", "kind", "on_job", "on_layer"])
        }
        DependKind::JobOnFrame => cue_json::no_others(
            alloc,
            object,
            &["any", "kind", "on_job", "on_layer", "on_frame"],
        ),
        DependKind::LayerOnJob => {
            cue_json::no_others(alloc, object, &["any", "kind", "on_job", "layer"])
        }
        DependKind::LayerOnLayer | DependKind::FrameByFrame | DependKind::PreviousFrame => {
            cue_json::no_others(
                alloc,
                object,
                &["any", "kind", "on_job", "layer", "on_layer"],
            )
        }
        DependKind::LayerOnFrame => cue_json::no_others(
            alloc,
            object,
            &["any", "kind", "on_job", "layer", "on_layer", "on_frame"],
        ),
        DependKind::FrameOnJob => cue_json::no_others(
            alloc,
            object,
            &["any", "kind", "on_job", "layer", "frame"],
        ),
        DependKind::FrameOnLayer => cue_json::no_others(
            alloc,
            object,
            &["any", "kind", "on_job", "layer", "frame", "on_layer"],
        ),
        DependKind::FrameOnFrame => cue_json::no_others(
            alloc,
            object,
            &[
                "any", "kind", "on_job", "layer", "frame", "on_layer", "on_frame",
            ],
        ),
    }
}
