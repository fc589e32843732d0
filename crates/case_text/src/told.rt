//! What the lines of a case tell.

use crate::line_fault::LineFault;
use crate::numbers::{Times, times_of};
use crate::spelling::numbered;
use farm_types::{Items, Text};
use std::alloc::{AllocError, Global};

/// What takes the lines of a case.
pub trait Told {
    /// Whether a line is pasted from a session: it begins with a mark of its kind.
    fn is_pasted(&self, line: &str) -> bool;

    /// Takes such a line.
    fn paste(&mut self, alloc: Global, line: &str) -> Result<(), LineFault>;

    /// Takes a setting.
    fn set(&mut self, alloc: Global, name: &str, value: &str) -> Result<(), LineFault>;
}

/// Takes what lines tell, up to the first malformed one, which is the answer.
pub fn take_lines<'a, T: Told>(
    case: &mut T,
    alloc: Global,
    lines: &'a str,
) -> Result<Option<&'a str>, AllocError> {
    for line in lines.lines() {
        match take_line(case, alloc, line) {
            Ok(()) => {}
            Err(LineFault::Malformed) => return Ok(Some(line)),
            Err(LineFault::NoMemory) => return Err(AllocError),
        }
    }
    Ok(None)
}

/// Takes the settings among lines, up to the first malformed one, which is the answer.
pub fn take_settings<'a, T: Told>(
    case: &mut T,
    alloc: Global,
    lines: &'a str,
) -> Result<Option<&'a str>, AllocError> {
    for line in lines.lines() {
        if case.is_pasted(line) || line.contains("× ") {
            continue;
        }
        match take_line(case, alloc, line) {
            Ok(()) => {}
            Err(LineFault::Malformed) => return Ok(Some(line)),
            Err(LineFault::NoMemory) => return Err(AllocError),
        }
    }
    Ok(None)
}

// Takes what a line tells: nothing where it is empty or a remark in brackets, else a pasted line, many of one, or a setting.
fn take_line<T: Told>(case: &mut T, alloc: Global, line: &str) -> Result<(), LineFault> {
    if line.is_empty() || line.starts_with('(') {
        return Ok(());
    }
    if case.is_pasted(line) {
        return case.paste(alloc, line);
    }
    if let Some((times, line)) = line.split_once("× ") {
        return paste_many(case, alloc, times_of(times)?, line);
    }
    match line.split_once(':') {
        Some((name, value)) => case.set(alloc, name, value.trim()),
        None => Err(LineFault::Malformed),
    }
}

// Takes a pasted line so many times, with its number in place of each `№`.
fn paste_many<T: Told>(
    case: &mut T,
    alloc: Global,
    times: Times,
    line: &str,
) -> Result<(), LineFault> {
    for number in times.first..times.past {
        let line = numbered(alloc, line, number)?;
        case.paste(alloc, line.as_str())?;
    }
    Ok(())
}

/// The words with blanks between them, of which `""` is the empty one.
pub fn words_of(alloc: Global, text: &str) -> Result<Items<Text>, LineFault> {
    let mut words = Items::new(alloc);
    for word in text.split_whitespace() {
        let word = if word == "\"\"" { "" } else { word };
        words.push(Text::from_str(alloc, word)?)?;
    }
    Ok(words)
}
