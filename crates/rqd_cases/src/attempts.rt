//! Attempts and exits as texts.

use case_text::{LineFault, number_of};
use farm_types::{Attempt, Exit, Slot, Version};
use std::alloc::{AllocError, Global};

/// How attempts end, as `0/1=0/0 1/1=3/9`: of each its slot and its version, and then the status and the signal.
pub fn exits_of(alloc: Global, text: &str) -> Result<Vec<(Attempt, Exit)>, LineFault> {
    let mut exits = Vec::new(alloc);
    for word in text.split_whitespace() {
        exits.push(exit_of(word)?)?;
    }
    Ok(exits)
}

// How an attempt ends.
fn exit_of(word: &str) -> Result<(Attempt, Exit), LineFault> {
    let Some((attempt, exit)) = word.split_once('=') else {
        return Err(LineFault::Malformed);
    };
    let (slot, version) = pair_of(attempt)?;
    let (status, signal) = pair_of(exit)?;
    let attempt = Attempt {
        slot: Slot(slot),
        version: Version(version),
    };
    Ok((attempt, Exit { status, signal }))
}

// Two numbers with a stroke between them.
fn pair_of(text: &str) -> Result<(u32, u32), LineFault> {
    let Some((first, second)) = text.split_once('/') else {
        return Err(LineFault::Malformed);
    };
    Ok((number_of(first)?, number_of(second)?))
}

/// An attempt, as `0/1`.
pub fn attempt_text(alloc: Global, attempt: &Attempt) -> Result<String, AllocError> {
    format!(in alloc; "{}/{}", attempt.slot.0, attempt.version.0)
}
