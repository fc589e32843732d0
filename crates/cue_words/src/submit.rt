//! The request that submits a job.

ghost use Rattle.std.specs.Prelude.{Some, option_map};
ghost use Rattle.cue_words.specs.Commands.{spec_in, submit_of, submitted};
ghost use Rattle.cue_words.specs.Results.{IsWords};
ghost use Rattle.serde_json.specs.View.{members_view};

use crate::asked::{ToolWords, WordsFault};
use crate::fields::Fields;
use crate::floats::members_have_float;
use crate::spec_object::{Map, read_object};
use cue_json::LineFault;
use farm_types::Text;
use serde_json::Value;
use std::alloc::Global;

/// The line that submits the spec. The one word is the name of its file.
pub fn submit(alloc: Global, words: &[Text], spec: Option<&str>) -> Result<ToolWords, WordsFault>
    ensures { IsWords result (submitted (option_map (λ text. text.now) spec.entry) words.now) }
{
    match words {
        [] => Err(WordsFault::Usage { at: 1 }),
        [_] => submit_spec(alloc, spec),
        _ => Err(WordsFault::Usage { at: 2 }),
    }
}

// The line that submits the spec's object.
fn submit_spec(alloc: Global, spec: Option<&str>) -> Result<ToolWords, WordsFault>
    ensures { IsWords result (submit_of (spec_in (option_map (λ text. text.now) spec.entry))) }
{
    let Some(text) = spec else {
        return Err(WordsFault::BadSpec);
    };
    match read_object(alloc, text.as_bytes()) {
        Ok(map) => submit_object(alloc, map),
        Err(LineFault::NotAnObject) => Err(WordsFault::BadSpec),
        Err(LineFault::NoMemory) => Err(WordsFault::NoMemory),
    }
}

// The object as the job, where it has no float.
fn submit_object(alloc: Global, map: Map) -> Result<ToolWords, WordsFault>
    ensures { IsWords result (submit_of (Some (members_view map.entries))) }
{
    if members_have_float(&map) {
        return Err(WordsFault::BadSpec);
    }
    let mut fields = Fields::asking(alloc, "submit")?;
    fields.put(alloc, "job", Value::Object(map))?;
    fields.into_asked(alloc)
}
