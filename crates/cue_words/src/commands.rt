//! The commands that ask by words alone, and what stands at their places.

ghost use Rattle.std.specs.Prelude.{◌≡◌, ◌<◌, Some, length, map};
ghost use Rattle.cue_words.specs.Commands.{asked, command, command_of, kill_parts, list_command, list_parts, lock_command};
ghost use Rattle.cue_words.specs.Results.{IsWords, part_of};

use crate::asked::{ToolWords, WordsFault};
use crate::fields::Fields;
use crate::fill::fill;
use crate::part::{FRAME, JOB, LAYER, Part};
use farm_types::Text;
use serde_json::Value;
use std::alloc::Global;

const SUB: [Part; 4] = [
    Part::Named("show"),
    Part::Named("alloc"),
    Part::OfCores("size"),
    Part::OfCores("burst"),
];

const LIMIT: [Part; 2] = [Part::Named("name"), Part::Numbered("most")];

/// The line of the command of that name, with these words after it, but for `submit`, `depend` and `help`.
pub fn ask(alloc: Global, name: &str, words: &[Text]) -> Result<ToolWords, WordsFault>
    ensures { IsWords result (asked (command_of name.now words.now) words.now) }
{
    match name {
        "list" => list(alloc, words),
        "show" => plain(alloc, "show", &[Part::Named("name")], words),
        "alloc" => plain(alloc, "alloc", &[Part::Named("name")], words),
        "sub" => plain(alloc, "sub", &SUB, words),
        "limit" => plain(alloc, "limit", &LIMIT, words),
        "lock" => lock(alloc, "LOCKED", words),
        "unlock" => lock(alloc, "OPEN", words),
        "nimby" => lock(alloc, "NIMBY_LOCKED", words),
        "drop" => plain(alloc, "drop", &[Part::Numbered("depend")], words),
        "pause" => plain(alloc, "pause", &[JOB], words),
        "resume" => plain(alloc, "resume", &[JOB], words),
        "kill" => plain(alloc, "kill", kill_parts(words), words),
        "eat" => plain(alloc, "eat", &[JOB, LAYER, FRAME], words),
        "retry" => plain(alloc, "retry", &[JOB, LAYER, FRAME], words),
        "tick" => plain(alloc, "tick", &[], words),
        _ => Err(WordsFault::Usage { at: 0 }),
    }
}

// The request of that name, with a field for each word.
fn plain(alloc: Global, op: &str, parts: &[Part], words: &[Text]) -> Result<ToolWords, WordsFault>
    requires { length parts.now < 10 }
    ensures { IsWords result (asked (Some (command op.now (map part_of parts.now))) words.now) }
{
    let mut fields = Fields::asking(alloc, op)?;
    fill(alloc, 1, parts, words, &mut fields)?;
    fields.into_asked(alloc)
}

// A list, from its beginning.
fn list(alloc: Global, words: &[Text]) -> Result<ToolWords, WordsFault>
    ensures { IsWords result (asked (Some (list_command words.now)) words.now) }
{
    let mut fields = Fields::asking(alloc, "list")?;
    fields.put(alloc, "from", Value::from(0u32))?;
    fill(alloc, 1, list_parts(words), words, &mut fields)?;
    fields.into_asked(alloc)
}

// The kind of list, and a job where a second word comes.
fn list_parts(words: &[Text]) -> &'static [Part]
    ensures parts { map part_of result.now ≡ list_parts words.now }
    ensures few { length result.now < 10 }
{
    match words {
        [_, _, ..] => &[Part::Named("what"), JOB],
        _ => &[Part::Named("what")],
    }
}

// A host's lock.
fn lock(alloc: Global, lock: &str, words: &[Text]) -> Result<ToolWords, WordsFault>
    ensures { IsWords result (asked (Some (lock_command lock.now)) words.now) }
{
    let mut fields = Fields::asking(alloc, "host")?;
    fields.put_text(alloc, "lock", lock)?;
    fill(alloc, 1, &[Part::Named("host")], words, &mut fields)?;
    fields.into_asked(alloc)
}

// A job, or one of its frames where more words come.
fn kill_parts(words: &[Text]) -> &'static [Part]
    ensures parts { map part_of result.now ≡ kill_parts words.now }
    ensures few { length result.now < 10 }
{
    match words {
        [_, _, ..] => &[JOB, LAYER, FRAME],
        _ => &[JOB],
    }
}
