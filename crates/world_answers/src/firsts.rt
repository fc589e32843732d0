//! The first ones of entries, and the farm after them.

ghost use Rattle.std.specs.Prelude.{◌≡◌, ◌+◌, None, Some, if◌then◌else◌, take, IfOk, OnOk};
ghost use Rattle.farm_types.specs.Run.{IsLegal, IsLegalStep, run_of};
ghost use Rattle.farm_types.specs.Step.{after};
ghost use Rattle.world_answers.specs.Reporting.{Counts, ends_if, has_entries};

use crate::committing::commit;
use farm_types::{DoneItem, Entry, FarmFault, Items};
use line_answers::farm_core::Farm;
use std::alloc::{AllocError, Global};

/// A copy of the farm after the entry of that number and those before it.
pub(crate) fn run_first(
    alloc: Global,
    farm: &Farm,
    entries: &[Entry],
    number: u32,
) -> Result<Farm, AllocError>
    requires { IsLegal farm.now entries.now }
    ensures { IfOk result (λ made. made ≡ run_of farm.now (take (number + 1) entries.now)) }
{
    let mut made = farm.copy(alloc)?;
    let mut left = u64::from(number) + 1;
    for entry in entries {
        if left == 0 {
            return Ok(made);
        }
        record(alloc, &mut made, entry)?;
        left -= 1;
    }
    Ok(made)
}

// The farm takes a legal entry.
fn record(alloc: Global, farm: &mut Farm, entry: &Entry) -> Result<(), AllocError>
    requires { IsLegalStep farm.old entry.now }
    ensures { OnOk result (farm.new ≡ after farm.old entry.now) }
{
    match commit(alloc, farm, entry) {
        Ok(()) => Ok(()),
        Err(FarmFault::Refused { .. }) => unreachable!(),
        Err(FarmFault::NoMemory) => Err(AllocError),
    }
}

/// So many entries, from the first one on.
pub(crate) fn first_entries(entries: Items<Entry>, count: u32) -> Items<Entry>
    ensures { result ≡ take count entries }
{
    let mut entries = entries.into_vec();
    entries.truncate(count as usize);
    Items::from_vec(entries)
}

/// The completions, where the store refused a later commit than the first.
pub(crate) fn ends_if(
    alloc: Global,
    number: u32,
    ends: &Items<DoneItem>,
) -> Result<Items<DoneItem>, AllocError>
    ensures { IfOk result (λ some. some ≡ ends_if number ends.now) }
{
    if number == 0 {
        return Ok(Items::new(alloc));
    }
    ends.copy(alloc)
}

/// Whether some entries come before the one of that number.
pub(crate) fn has_entries(number: u32) -> bool
    ensures { result ≡ has_entries number }
{
    if number == 0 {
        return false;
    }
    true
}

/// How many commits come before the entry of that number, where that is one.
pub(crate) fn commits_before(stored: &[bool], number: u32) -> Option<u32>
    ensures { Counts stored.now number result }
{
    let mut count = 0;
    let mut place = 0;
    for is_stored in stored {
        if place == number {
            return commit_if(*is_stored, count);
        }
        place += 1;
        if *is_stored {
            count += 1;
        }
    }
    None
}

// The count, where the entry is a commit.
fn commit_if(is_stored: bool, count: u32) -> Option<u32>
    ensures { result ≡ (if is_stored then Some count else None) }
{
    if is_stored { Some(count) } else { None }
}
