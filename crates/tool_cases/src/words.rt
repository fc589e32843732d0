//! What the words of the tool ask.

use case_text::{LineFault, unquoted};
use cue_words::{ToolWords, WordsFault, read_words};
use farm_types::{Items, Text};
use std::alloc::{AllocError, Global};

/// The line that words ask for, as `show alpha`, or `submit FILE with SPEC`, where the text of the spec's file is given: the line, `help`, `usage AT` or
/// `bad spec`. An empty word stands as two quotes, which alone are no word.
pub fn asked(alloc: Global, given: &str) -> Result<String, LineFault> {
    let (words, spec) = words_and_spec(given);
    let words = words_of(alloc, words)?;
    match read_words(alloc, words.as_slice(), spec) {
        Ok(ToolWords::Ask { line }) => Ok(line.into_string()),
        Ok(ToolWords::Help) => Ok(String::from_str(alloc, "help")?),
        Err(fault) => told(alloc, fault),
    }
}

// The fault in words.
fn told(alloc: Global, fault: WordsFault) -> Result<String, LineFault> {
    match fault {
        WordsFault::Usage { at } => Ok(format!(in alloc; "usage {at}")?),
        WordsFault::BadSpec => Ok(String::from_str(alloc, "bad spec")?),
        WordsFault::NoMemory => Err(LineFault::NoMemory),
    }
}

/// The words, and the text of the spec's file where there is one.
pub fn words_and_spec(given: &str) -> (&str, Option<&str>) {
    match given.split_once(" with ") {
        Some((words, spec)) => (words, Some(unquoted(spec))),
        None => (given, None),
    }
}

/// The words between single blanks.
pub fn words_of(alloc: Global, text: &str) -> Result<Items<Text>, AllocError> {
    let mut words = Items::new(alloc);
    if unquoted(text).is_empty() {
        return Ok(words);
    }
    for word in text.split(' ') {
        words.push(Text::from_str(alloc, unquoted(word))?)?;
    }
    Ok(words)
}
