//! The farm that a world begins with.

ghost use Rattle.recorder_start.specs.Asking.{MayCommit};

use case_text::LineFault;
use farm_types::{Entry, FarmFault};
use json::Scratch;
use line_answers::farm_core::Farm;
use recorder_start::entry_of;
use std::alloc::Global;
use world_answers::commit;

/// Records what a line of the protocol asks for, in the farm before anything happens. A line that asks for no entry, or is refused, is malformed.
pub fn record_line(alloc: Global, farm: &mut Farm, line: &str) -> Result<(), LineFault> {
    let mut scratch = Scratch::new(alloc);
    match entry_of(alloc, line.as_bytes(), &mut scratch, 0)? {
        None => Err(LineFault::Malformed),
        Some(entry) => record(alloc, farm, &entry),
    }
}

// Records an entry.
#[tactic(auto, using(crate::proofs::Unbooked::unbooked_condition))]
fn record(alloc: Global, farm: &mut Farm, entry: &Entry) -> Result<(), LineFault>
    requires { MayCommit entry.now }
{
    match commit(alloc, farm, entry) {
        Ok(()) => Ok(()),
        Err(FarmFault::Refused { .. }) => Err(LineFault::Malformed),
        Err(FarmFault::NoMemory) => Err(LineFault::NoMemory),
    }
}
