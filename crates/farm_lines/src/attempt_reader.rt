//! Attempts in lists.

ghost use Rattle.farm_lines.specs.Request.{attempt_at};

use crate::fields::read_whole;
use cue_json::{FieldFault, ItemReader, Map};
use farm_types::{Attempt, LAST_SLOT, LAST_VERSION, Slot, Version};
use std::alloc::Global;

/// Reads an attempt: its slot and its version, and no other field.
#[derive(Debug, Drop)]
pub struct AttemptReader;

impl ItemReader for AttemptReader {
    type Item = Attempt;

    ghost reads = { λ reader. attempt_at };

    #[tactic(auto, unfolding(crate::specs::Request::attempt_at))]
    fn read(&self, alloc: Global, object: &Map) -> Result<Attempt, FieldFault> {
        let slot = read_whole(alloc, object, "slot", 0, LAST_SLOT)?;
        let version = read_whole(alloc, object, "version", 0, LAST_VERSION)?;
        cue_json::no_others(alloc, object, &["slot", "version"])?;
        Ok(Attempt {
            slot: Slot(slot),
            version: Version(version),
        })
    }
}
