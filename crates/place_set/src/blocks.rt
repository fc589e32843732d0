//! The blocks of places: how many places of each are in the set, and a walk that leaps over a block where none is.

ghost use Rattle.std.specs.Prelude.{◌≡◌, ◌<◌, Bool, length, replicate, slice_index, slice_set, true, IfOk};
ghost use Rattle.place_set.specs.Inside.{Counted, CountChanges, count_with};
ghost use Rattle.place_set.specs.Places.{first_from};

use std::alloc::{AllocError, Global};

/// How many places a block has. The last block has fewer, or none.
pub(crate) const BLOCK: usize = 128;

/// The counts where all places below the length are in the set.
pub(crate) fn full_counts(alloc: Global, length: usize) -> Result<Vec<u32>, AllocError>
    ensures { IfOk result (λ counts. Counted (replicate length true) counts.items) }
{
    let mut counts = vec![in alloc; BLOCK as u32; length / BLOCK + 1]?;
    counts[length / BLOCK] = (length % BLOCK) as u32;
    Ok(counts)
}

/// Counts a place of the block that came into the set, or left it.
pub(crate) fn change_count(counts: &mut Vec<u32>, block: usize, there: bool)
    requires within { block < length counts.old.items }
    requires changes { CountChanges there (slice_index counts.old.items block) }
    ensures { counts.new.items ≡ slice_set counts.old.items block (count_with there (slice_index counts.old.items block)) }
{
    if there {
        counts[block] += 1;
    } else {
        counts[block] -= 1;
    }
}

/// The first place of the set at this one or after it. It looks at the marks from there to the end of the block, at a count for
/// each block after that one, and at the marks of one block whose count isn't 0.
pub(crate) fn first_marked(marks: &[bool], counts: &[u32], from: usize) -> Option<usize>
    requires { Counted marks.now counts.now }
    ensures { result ≡ first_from marks.now from }
{
    let mut place = from;
    while place < marks.len() {
        if place % BLOCK == 0 && counts[place / BLOCK] == 0 {
            place += BLOCK;
        } else if marks[place] {
            return Some(place);
        } else {
            place += 1;
        }
    }
    None
}
