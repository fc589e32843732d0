//! One word of a command: what has to stand at its place, and the field that it gives.

ghost use Rattle.std.specs.Prelude.{◌≡◌, ok_or};
ghost use Rattle.cue_words.specs.Members.{members};
ghost use Rattle.cue_words.specs.Parts.{Usage, any_of, taken};
ghost use Rattle.cue_words.specs.Results.{Gives, part_of};

use crate::asked::WordsFault;
use crate::fields::Fields;
use crate::number::{read_number, value_of};
use farm_lines::read_cores;
use serde_json::Value;
use std::alloc::Global;

/// What stands at a place of a command.
#[derive(Clone, Copy)]
pub enum Part {
    /// Any word, as the text of that field.
    Named(&'static str),
    /// A number, as that field.
    Numbered(&'static str),
    /// A cores text, as that field in hundredths of a core.
    OfCores(&'static str),
    /// `all` or `any`.
    AllOrAny,
    /// `on`.
    On,
}

/// A job's name.
pub const JOB: Part = Part::Named("job");

/// The name of one of its layers.
pub const LAYER: Part = Part::Named("layer");

/// The number of a frame in the layer.
pub const FRAME: Part = Part::Numbered("frame");

/// Puts in what the word gives, which stands at that place. Where it is wrong, the place is the fault.
pub fn take(
    alloc: Global,
    part: Part,
    word: &str,
    at: usize,
    fields: &mut Fields,
) -> Result<(), WordsFault>
    ensures { Gives (λ none. members fields.new) result (ok_or (taken (part_of part) word.now (members fields.old)) (Usage at)) }
{
    match part {
        Part::Named(field) => Ok(fields.put_text(alloc, field, word)?),
        Part::Numbered(field) => match read_number(word) {
            Some(number) => Ok(fields.put(alloc, field, value_of(number))?),
            None => Err(WordsFault::Usage { at }),
        },
        Part::OfCores(field) => match read_cores(word) {
            Some(cores) => Ok(fields.put(alloc, field, Value::from(cores.0))?),
            None => Err(WordsFault::Usage { at }),
        },
        Part::AllOrAny => take_any(alloc, word, at, fields),
        Part::On => if word == "on" {
            Ok(())
        } else {
            Err(WordsFault::Usage { at })
        },
    }
}

// Whether one target is enough.
fn take_any(alloc: Global, word: &str, at: usize, fields: &mut Fields) -> Result<(), WordsFault>
    ensures { Gives (λ none. members fields.new) result (ok_or (any_of word.now (members fields.old)) (Usage at)) }
{
    match word {
        "all" => Ok(fields.put(alloc, "any", Value::Bool(false))?),
        "any" => Ok(fields.put(alloc, "any", Value::Bool(true))?),
        _ => Err(WordsFault::Usage { at }),
    }
}
