//! Whether a boot or a report is taken.

ghost use Rattle.std.specs.Prelude.{◌≡◌, ◌<◌, length, slice_get};
ghost use Rattle.farm_types.specs.Hosts.{is_same_life};
ghost use Rattle.host_book.specs.Book.{first_plan, heard_check, life_plan, plan_of};

use crate::boots::{BootPlan, HeardRefusal, HostRefusal};
use crate::hosts::Hosts;
use farm_types::{AllocNo, BootLine, HostNo, HostRow, LAST_BOOT, MOST_HOSTS};

impl Hosts {
    /// What a boot of a host of that allocation comes to. `OtherAlloc` comes exactly where the host is there with another
    /// allocation; `HostsFull` where it is new and 4,096 are there; and `BootsSpent` where it is there, the nonce is new, and
    /// its boot number is 4,294,967,295.
    pub fn check_boot(&self, boot: &BootLine, alloc: AllocNo) -> Result<BootPlan, HostRefusal>
        ensures { result ≡ plan_of self.now boot.now alloc }
    {
        let Some(host) = self.find(boot.host.as_str()) else {
            return first_plan(self.rows.as_slice(), alloc);
        };
        let Some(row) = self.row(host) else {
            return first_plan(self.rows.as_slice(), alloc);
        };
        life_plan(row, boot, alloc)
    }

    /// Whether a report of that boot and sequence number may be taken. `WrongBoot` comes exactly where the host's boot number is
    /// another, and `Stale` exactly where it is this one and the sequence number isn't above the last one.
    pub fn check_heard(&self, host: HostNo, boot: u32, seq: u64) -> Result<(), HeardRefusal>
        requires { host < length self.now }
        ensures { result ≡ heard_check boot seq (slice_get self.now host) }
    {
        let Some(row) = self.row(host) else {
            return Ok(());
        };
        if row.boot != boot {
            return Err(HeardRefusal::WrongBoot { boot: row.boot });
        }
        if seq <= row.seq {
            return Err(HeardRefusal::Stale { last: row.seq });
        }
        Ok(())
    }
}

// What the first boot of a host comes to.
fn first_plan(rows: &[HostRow], alloc: AllocNo) -> Result<BootPlan, HostRefusal>
    ensures { result ≡ first_plan rows.now alloc }
{
    if rows.len() < MOST_HOSTS as usize {
        Ok(BootPlan::New { boot: 1, alloc })
    } else {
        Err(HostRefusal::HostsFull)
    }
}

// What the boot of a host that is there comes to.
pub(crate) fn life_plan(
    row: &HostRow,
    line: &BootLine,
    alloc: AllocNo,
) -> Result<BootPlan, HostRefusal>
    ensures { result ≡ life_plan line.now alloc row.now }
{
    if row.alloc != alloc {
        return Err(HostRefusal::OtherAlloc { alloc: row.alloc });
    }
    if is_same_life(row, line) {
        return Ok(BootPlan::Same {
            boot: row.boot,
            alloc,
        });
    }
    if row.boot < LAST_BOOT {
        Ok(BootPlan::Again {
            boot: row.boot + 1,
            alloc,
        })
    } else {
        Err(HostRefusal::BootsSpent)
    }
}

// Whether the boot is of the host's life that is known.
pub(crate) fn is_same_life(row: &HostRow, line: &BootLine) -> bool
    ensures { result ≡ is_same_life line.now row.now }
{
    row.nonce == line.nonce
}
