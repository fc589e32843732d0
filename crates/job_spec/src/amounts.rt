//! Amounts within their limits.

ghost use Rattle.std.specs.Prelude.{IfOk, OnOk};
ghost use Rattle.farm_lines.specs.Points.{cores_of};
ghost use Rattle.farm_lines.specs.Spec.{layer_cores, within};
ghost use Rattle.farm_types.specs.Limits.{IsBetween};
ghost use Rattle.farm_types.specs.declared.limits.TheConstants.{LEAST_CORES, MOST_CORES};
ghost use Rattle.job_spec.specs.SpecResults.{GivesSpec};

use crate::fault::SpecFault;
use farm_lines::read_cores;
use farm_types::{Cores, LEAST_CORES, MOST_CORES};
use std::alloc::Global;

/// Nothing where the amount of the field is from `least` to `most`, else `Amount` with the field. It has 128 bits, so that a sum of
/// lengths is one too.
pub fn within(
    alloc: Global,
    field: &str,
    least: u128,
    most: u128,
    amount: u128,
) -> Result<(), SpecFault>
    ensures gives { GivesSpec result (within field.now least most amount) }
    ensures limits { OnOk result (IsBetween least most amount) }
{
    if least <= amount && amount <= most {
        Ok(())
    } else {
        Err(SpecFault::amount(alloc, field))
    }
}

/// The amount of cores that a layer's text says.
pub fn read_layer_cores(alloc: Global, field: &str, text: &str) -> Result<Cores, SpecFault>
    ensures gives { GivesSpec result (layer_cores field.now (cores_of text.now)) }
    ensures limits { IfOk result (IsBetween LEAST_CORES MOST_CORES) }
{
    let Some(cores) = read_cores(text) else {
        return Err(SpecFault::amount(alloc, field));
    };
    within(
        alloc,
        field,
        u128::from(LEAST_CORES),
        u128::from(MOST_CORES),
        u128::from(cores.0),
    )?;
    Ok(cores)
}
