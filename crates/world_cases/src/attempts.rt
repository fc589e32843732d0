//! Attempts and exits as texts, both ways.

use case_text::{LineFault, number_of};
use farm_types::{Attempt, Exit, Slot, Version};
use std::alloc::{AllocError, Global};

/// An attempt, from `0/1`: its slot and its version.
pub fn attempt_of(text: &str) -> Result<Attempt, LineFault> {
    let Some((slot, version)) = text.split_once('/') else {
        return Err(LineFault::Malformed);
    };
    Ok(Attempt {
        slot: Slot(number_of(slot)?),
        version: Version(number_of(version)?),
    })
}

/// The same as a text.
pub fn attempt_text(alloc: Global, attempt: &Attempt) -> Result<String, AllocError> {
    format!(in alloc; "{}/{}", attempt.slot.0, attempt.version.0)
}

/// How an attempt ended, as `0/1=0/9`: behind the attempt its status and its signal.
pub fn end_text(alloc: Global, attempt: &Attempt, exit: Exit) -> Result<String, AllocError> {
    let attempt = attempt_text(alloc, attempt)?;
    format!(in alloc; "{attempt}={}/{}", exit.status, exit.signal)
}

/// Attempts behind a blank each.
pub fn attempt_texts(alloc: Global, attempts: &[Attempt]) -> Result<String, AllocError> {
    let mut text = String::new(alloc);
    for attempt in attempts {
        text.push(' ')?;
        text.push_str(attempt_text(alloc, attempt)?.as_str())?;
    }
    Ok(text)
}

/// The same, or that there is none.
pub fn some_attempts(alloc: Global, attempts: &[Attempt]) -> Result<String, AllocError> {
    if attempts.is_empty() {
        return String::from_str(alloc, " nothing");
    }
    attempt_texts(alloc, attempts)
}
