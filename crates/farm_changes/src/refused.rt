//! The refusal that names an allocation.

ghost use Rattle.std.specs.Prelude.{◌≡◌, IfOk};
ghost use Rattle.farm_types.specs.Farm.{alloc_name};
ghost use Rattle.farm_types.specs.Faults.{IsRefusal};
ghost use Rattle.farm_types.specs.declared.refusal.Refusal.TheVariants.{Exists};

use farm_types::{FarmFault, Refusal, Text};
use std::alloc::{AllocError, Global};

// That an allocation of that facility and tag is there.
pub(crate) fn existing_alloc(alloc: Global, facility: &str, tag: &str) -> FarmFault
    ensures { IsRefusal (Exists (alloc_name facility.now tag.now)) result }
{
    match alloc_name(alloc, facility, tag) {
        Ok(name) => FarmFault::Refused {
            why: Refusal::Exists { name },
        },
        Err(_) => FarmFault::NoMemory,
    }
}

// An allocation's name: its facility, a point, and its tag.
fn alloc_name(alloc: Global, facility: &str, tag: &str) -> Result<Text, AllocError>
    ensures { IfOk result (λ name. name ≡ alloc_name facility.now tag.now) }
{
    let mut name = String::from_str(alloc, facility)?;
    name.push_str(".")?;
    name.push_str(tag)?;
    Ok(Text::from_string(name))
}
