//! The request for a depend.

ghost use Rattle.std.specs.Prelude.{◌≡◌, ◌<◌, length, map};
ghost use Rattle.cue_words.specs.Commands.{depend_of, depend_parts, depended};
ghost use Rattle.cue_words.specs.Results.{IsWords, part_of};

use crate::asked::{ToolWords, WordsFault};
use crate::fields::Fields;
use crate::fill::fill;
use crate::part::Part::{AllOrAny, On};
use crate::part::{FRAME, JOB, LAYER, Part};
use farm_types::{DependKind, Text};
use state_names::{Word, kind_word};
use std::alloc::Global;

const ON_JOB: Part = Part::Named("on_job");

const ON_LAYER: Part = Part::Named("on_layer");

const ON_FRAME: Part = Part::Numbered("on_frame");

/// The line of the depend that the words say, the first of them its kind.
pub fn depend(alloc: Global, words: &[Text]) -> Result<ToolWords, WordsFault>
    ensures { IsWords result (depended words.now) }
{
    match words {
        [] => Err(WordsFault::Usage { at: 1 }),
        [kind, words @ ..] => match DependKind::of_word(kind.as_str()) {
            Some(kind) => depend_of(alloc, kind, words),
            None => Err(WordsFault::Usage { at: 1 }),
        },
    }
}

// The line of a depend of that kind.
fn depend_of(alloc: Global, kind: DependKind, words: &[Text]) -> Result<ToolWords, WordsFault>
    ensures { IsWords result (depend_of (Some kind) words.now) }
{
    let mut fields = Fields::asking(alloc, "depend")?;
    fields.put_text(alloc, "kind", kind_word(kind))?;
    fill(alloc, 2, parts_of(kind), words, &mut fields)?;
    fields.into_asked(alloc)
}

// What stands after the kind: `all` or `any`, the end that waits, `on`, and the end that is waited for.
fn parts_of(kind: DependKind) -> &'static [Part]
    ensures parts { map part_of result.now ≡ depend_parts kind }
    ensures few { length result.now < 10 }
{
    match kind {
        DependKind::JobOnJob => &[AllOrAny, JOB, On, ON_JOB],
        DependKind::JobOnLayer => &[AllOrAny, JOB, On, ON_JOB, ON_LAYER],
        DependKind::JobOnFrame => &[AllOrAny, JOB, On, ON_JOB, ON_LAYER, ON_FRAME],
        DependKind::LayerOnJob => &[AllOrAny, JOB, LAYER, On, ON_JOB],
        DependKind::LayerOnLayer | DependKind::FrameByFrame | DependKind::PreviousFrame => {
            &[AllOrAny, JOB, LAYER, On, ON_JOB, ON_LAYER]
        }
        DependKind::LayerOnFrame => &[AllOrAny, JOB, LAYER, On, ON_JOB, ON_LAYER, ON_FRAME],
        DependKind::FrameOnJob => &[AllOrAny, JOB, LAYER, FRAME, On, ON_JOB],
        DependKind::FrameOnLayer => &[AllOrAny, JOB, LAYER, FRAME, On, ON_JOB, ON_LAYER],
        DependKind::FrameOnFrame => &[AllOrAny, JOB, LAYER, FRAME, On, ON_JOB, ON_LAYER, ON_FRAME],
    }
}
