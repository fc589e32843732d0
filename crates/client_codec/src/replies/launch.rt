//! Launches in the list of a report's reply.

ghost use Rattle.farm_lines.specs.ReplyLines.{launch_at};

use cue_json::{FieldFault, ItemReader, Map};
use farm_lines::{Launch, read_name, read_text, read_whole};
use farm_types::{
    Attempt, Cores, Kb, LAST_SLOT, LAST_VERSION, LEAST_CORES, LEAST_MEMORY, MOST_CORES,
    MOST_MEMORY, Slot, Version,
};
use std::alloc::Global;

/// Reads a launch: cores in hundredths of a core, memory in KB.
#[derive(Debug, Drop)]
pub struct LaunchReader;

impl ItemReader for LaunchReader {
    type Item = Launch;

    ghost reads = { λ reader. launch_at };

    #[tactic(auto, unfolding(farm_lines::specs::ReplyLines::launch_at))]
    fn read(&self, alloc: Global, object: &Map) -> Result<Launch, FieldFault> {
        let command = read_text(alloc, object, "command")?;
        let cores = read_whole(alloc, object, "cores", LEAST_CORES, MOST_CORES)?;
        let frame = read_text(alloc, object, "frame")?;
        let job = read_name(alloc, object, "job")?;
        let layer = read_name(alloc, object, "layer")?;
        let memory = cue_json::whole(alloc, object, "memory", LEAST_MEMORY, MOST_MEMORY)?;
        let slot = read_whole(alloc, object, "slot", 0, LAST_SLOT)?;
        let version = read_whole(alloc, object, "version", 0, LAST_VERSION)?;
        cue_json::no_others(
            alloc,
            object,
            &[
                "command", "cores", "frame", "job", "layer", "memory", "slot", "version",
            ],
        )?;
        Ok(Launch {
            attempt: Attempt {
                slot: Slot(slot),
                version: Version(version),
            },
            command,
            cores: Cores(cores),
            frame,
            job,
            layer,
            memory: Kb(memory),
        })
    }
}
