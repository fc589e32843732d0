//! The hosts of a world.

use crate::asks::long_of;
use case_text::LineFault;
use farm_lines::read_cores;
use farm_types::{Kb, Text};
use rqd_core::RqdConfig;
use std::alloc::Global;

/// A host, by the words that its daemon takes, but for the last: `h1 farm.general 8 33554432 7`. The number of its first life comes last.
pub fn host_of(alloc: Global, text: &str) -> Result<RqdConfig, LineFault> {
    let (name, rest) = first_word(text)?;
    let (allocation, rest) = first_word(rest)?;
    let (cores, rest) = first_word(rest)?;
    let (memory, nonce) = first_word(rest)?;
    let Some(cores) = read_cores(cores) else {
        return Err(LineFault::Malformed);
    };
    Ok(RqdConfig {
        name: Text::from_str(alloc, name)?,
        alloc: Text::from_str(alloc, allocation)?,
        cores,
        memory: Kb(long_of(memory)?),
        nonce: long_of(nonce)?,
    })
}

// The first word, and what stands behind the blank after it.
fn first_word(text: &str) -> Result<(&str, &str), LineFault> {
    match text.split_once(' ') {
        Some(parts) => Ok(parts),
        None => Err(LineFault::Malformed),
    }
}
