//! What the farm says of a host's size, a subscription's burst and the most of a limit.

ghost use Rattle.std.specs.Prelude.{◌≡◌, ◌≤◌};
ghost use Rattle.farm_types.specs.declared.limits.TheConstants.{MOST_BURST, MOST_CORES, MOST_MEMORY, MOST_RUNNING};
ghost use Rattle.booking_rule.specs.Link.{burst_at, most_at};
ghost use Rattle.farm_stands.specs.Turns.{size_at};

use farm_core::Farm;
use farm_types::{AllocNo, Cores, HostNo, Kb, LimitNo, SubNo};

/// A host's size, in hundredths of a core and KB, and its allocation: all 0 where there is no such host.
#[derive(Clone, Copy, Debug, PartialEq, Eq)]
pub struct HostSize {
    pub cores: Cores,
    pub memory: Kb,
    pub alloc: AllocNo,
}

/// The size and the allocation of the host of that number.
#[tactic(auto, unfolding(booking_rule::specs::Link::host_cores, booking_rule::specs::Link::host_memory, booking_rule::specs::Link::host_alloc))]
pub fn host_size(farm: &Farm, host: HostNo) -> HostSize
    ensures size { result ≡ size_at farm.now host }
    ensures within { (result.cores ≤ MOST_CORES) × (result.memory ≤ MOST_MEMORY) }
{
    farm.kept();
    match farm.books().host(host) {
        None => HostSize {
            cores: Cores(0),
            memory: Kb(0),
            alloc: AllocNo(0),
        },
        Some(row) => HostSize {
            cores: row.cores,
            memory: row.memory,
            alloc: row.alloc,
        },
    }
}

/// The burst of the subscription of that number, 0 where there is none.
#[tactic(auto, unfolding(booking_rule::specs::Link::burst_at))]
pub fn burst(farm: &Farm, sub: SubNo) -> Cores
    ensures burst { result ≡ burst_at farm.now sub }
    ensures within { result ≤ MOST_BURST }
{
    farm.kept();
    match farm.books().sub(sub) {
        None => Cores(0),
        Some(row) => row.burst,
    }
}

/// How many frames the limit of that number lets run, 0 where there is none.
#[tactic(auto, unfolding(booking_rule::specs::Link::most_at))]
pub fn most(farm: &Farm, limit: LimitNo) -> u32
    ensures most { result ≡ most_at farm.now limit }
    ensures within { result ≤ MOST_RUNNING }
{
    farm.kept();
    match farm.books().limits().row(limit) {
        None => 0,
        Some(row) => row.most,
    }
}
