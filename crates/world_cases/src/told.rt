//! What differs first between what a case tells and what came.

use crate::tale::Tale;
use case_text::take_lines;
use std::alloc::{AllocError, Global};

/// Plays the world of a case, behind the shared lines of its file, and says what differed first from what it tells.
pub fn difference(alloc: Global, shared: &str, told: &str) -> Result<Option<String>, AllocError> {
    let mut tale = Tale::make(alloc, true)?;
    let found = found_in(alloc, &mut tale, shared, told);
    drop(tale);
    found
}

// The same for a world of which nothing is told yet.
fn found_in(
    alloc: Global,
    tale: &mut Tale,
    shared: &str,
    told: &str,
) -> Result<Option<String>, AllocError> {
    if let Some(line) = take_lines(tale, alloc, shared)? {
        return malformed(alloc, line);
    }
    if let Some(line) = take_lines(tale, alloc, told)? {
        return malformed(alloc, line);
    }
    if !tale.has_begun() {
        return Ok(Some(String::from_str(alloc, "the case tells no event")?));
    }
    Ok(tale.take_found())
}

fn malformed(alloc: Global, line: &str) -> Result<Option<String>, AllocError> {
    Ok(Some(format!(in alloc; "the case has a malformed line: {line}")?))
}
