//! The range of a layer, read once.

ghost use Rattle.std.specs.Prelude.{◌≡◌, ◌≤◌, length, IfOk, Ok};
ghost use Rattle.frame_range.specs.Sets.{set_of};
ghost use Rattle.farm_types.specs.declared.limits.TheConstants.{MOST_RANGE};
ghost use Rattle.row_index.specs.Ranges.{Reads, is_no_memory};

use farm_types::{MOST_RANGE, Text};
use frame_range::{FrameSet, RangeFault, parse_set};
use std::alloc::{AllocError, Global};

/// The set of a range's text, or none where it isn't the text of a set as the set prints, or is too long.
pub fn range_of(alloc: Global, text: &Text) -> Result<Option<FrameSet>, AllocError>
    ensures { IfOk result (λ found. Reads text.now found) }
{
    let range = text.as_str();
    if range.len() > MOST_RANGE as usize {
        return Ok(None);
    }
    match parse_set(alloc, range) {
        Ok(set) => printed_as(alloc, range, set),
        Err(fault) => {
            if is_no_memory(fault) {
                return Err(AllocError);
            }
            Ok(None)
        }
    }
}

// The set of a text that is read as it, or none where the set prints otherwise.
fn printed_as(alloc: Global, text: &str, set: FrameSet) -> Result<Option<FrameSet>, AllocError>
    requires read { set_of text.now ≡ Ok set }
    requires short { length text.now ≤ MOST_RANGE }
    ensures { IfOk result (λ found. Reads text.now found) }
{
    let printed = set.print(alloc)?;
    if printed.as_str() == text {
        return Ok(Some(set));
    }
    Ok(None)
}

// Whether memory ran out.
fn is_no_memory(fault: RangeFault) -> bool
    ensures { result ≡ is_no_memory fault }
{
    matches!(fault, RangeFault::NoMemory)
}
