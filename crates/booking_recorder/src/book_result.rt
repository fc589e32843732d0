//! What became of a booking by the recorder alone.

use crate::refusal::ConfirmRefusal;
use booking_table::{BurstFull, HostShort, LimitFull};
use farm_types::ProcRow;

/// What became of a frame that was to be booked, by the step that was lost. `Booked`: none was; this attempt runs. `Burst`, `Limit`, `Host`: the
/// subscription has no burst for it, its layer's limit no place, the host no room. `Taken`: the frame doesn't wait as it was chosen; this word of its slot
/// was seen, with host 0. `Confirm`: the claim wasn't booked.
#[derive(Clone, Copy, Debug, PartialEq, Eq)]
pub enum BookResult {
    Booked { row: ProcRow },
    Burst { why: BurstFull },
    Limit { why: LimitFull },
    Host { why: HostShort },
    Taken { found: u64 },
    Confirm { why: ConfirmRefusal },
}
