//! Completions in a report's list.

ghost use Rattle.cue_json.specs.View.{members_view};
ghost use Rattle.cue_json.specs.Fields.{Gives};
ghost use Rattle.farm_lines.specs.Fields.{optional_whole_at};
ghost use Rattle.farm_lines.specs.Request.{done_at};

use cue_json::{FieldFault, ItemReader, Map};
use farm_lines::read_whole;
use farm_types::{
    Attempt, Cores, DoneItem, Exit, LAST_SLOT, LAST_VERSION, MOST_CORES, MOST_EXIT, Slot, Version,
};
use std::alloc::Global;

/// Reads a completion: its attempt, its exit, and the free cores where they are told.
#[derive(Debug, Drop)]
pub struct DoneReader;

impl ItemReader for DoneReader {
    type Item = DoneItem;

    ghost reads = { λ reader. done_at };

    #[tactic(auto, unfolding(farm_lines::specs::Request::done_at))]
    fn read(&self, alloc: Global, object: &Map) -> Result<DoneItem, FieldFault> {
        let slot = read_whole(alloc, object, "slot", 0, LAST_SLOT)?;
        let version = read_whole(alloc, object, "version", 0, LAST_VERSION)?;
        let status = read_whole(alloc, object, "status", 0, MOST_EXIT)?;
        let signal = read_whole(alloc, object, "signal", 0, MOST_EXIT)?;
        let free = optional_cores(alloc, object, "free", MOST_CORES)?;
        cue_json::no_others(
            alloc,
            object,
            &["free", "signal", "slot", "status", "version"],
        )?;
        Ok(DoneItem {
            attempt: Attempt {
                slot: Slot(slot),
                version: Version(version),
            },
            exit: Exit { status, signal },
            free,
        })
    }
}

// An amount of cores that may be left out.
fn optional_cores(
    alloc: Global,
    object: &Map,
    field: &str,
    most: u32,
) -> Result<Option<Cores>, FieldFault>
    ensures { Gives (λ cores. cores) result (optional_whole_at field.now 0 most (members_view object.now.items)) }
{
    if cue_json::has(object, field) {
        let cores = read_whole(alloc, object, field, 0, most)?;
        Ok(Some(Cores(cores)))
    } else {
        Ok(None)
    }
}
