//! Refusals of what isn't there.

ghost use Rattle.farm_types.specs.DependActs.{missing_among};
ghost use Rattle.farm_types.specs.Faults.{IsRefusal};
ghost use Rattle.farm_types.specs.Names.{frame_name};
ghost use Rattle.farm_types.specs.declared.refusal.Refusal.TheVariants.{Unknown};

use command_text::frame_name;
use farm_types::{FarmFault, Refusal, Text};
use job_book::Jobs;
use std::alloc::Global;

/// That no pending job has the name: it is finished, or there is none.
pub fn missing(alloc: Global, jobs: &Jobs, name: &Text) -> FarmFault
    ensures { IsRefusal (missing_among jobs.now.jobs name.now) result }
{
    if jobs.has_finished(name.as_str()) {
        return FarmFault::finished(alloc, name);
    }
    FarmFault::unknown(alloc, name)
}

/// That the layer has no frame of that number.
pub fn unknown_frame(alloc: Global, number: i32, layer: &Text) -> FarmFault
    ensures { IsRefusal (Unknown (frame_name number layer.now)) result }
{
    match frame_name(alloc, number, layer.as_str()) {
        Ok(name) => FarmFault::Refused {
            why: Refusal::Unknown { name },
        },
        Err(_) => FarmFault::NoMemory,
    }
}
