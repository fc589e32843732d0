//! Words against the parts of a command.

ghost use Rattle.std.specs.Prelude.{◌+◌, ◌<◌, length, map};
ghost use Rattle.cue_words.specs.Members.{members};
ghost use Rattle.cue_words.specs.Parts.{filled};
ghost use Rattle.cue_words.specs.Results.{Gives, part_of};

use crate::asked::WordsFault;
use crate::fields::Fields;
use crate::part::{Part, take};
use farm_types::Text;
use std::alloc::Global;

/// Puts in what the words from that place on give, each by its part. The first place that is wrong, missing, or one too many, is the fault.
pub fn fill(
    alloc: Global,
    at: usize,
    parts: &[Part],
    words: &[Text],
    fields: &mut Fields,
) -> Result<(), WordsFault>
    requires { at + length parts.now < 100 }
    ensures { Gives (λ none. members fields.new) result (filled at (map part_of parts.now) words.now (members fields.old)) }
{
    match (parts, words) {
        ([], []) => Ok(()),
        ([], [_, ..]) => Err(WordsFault::Usage { at }),
        ([part, parts @ ..], words) => match words {
            [] => Err(WordsFault::Usage { at }),
            [word, words @ ..] => {
                take(alloc, *part, word.as_str(), at, fields)?;
                fill(alloc, at + 1, parts, words, fields)
            }
        },
    }
}
