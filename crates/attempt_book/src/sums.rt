//! What live attempts use of each host, by its number: a total rises as an attempt begins, and falls as it ends.

ghost use Rattle.std.specs.Prelude.{◌≡◌, ◌+◌, ◌-◌, ◌^◌, ◌<◌, ◌≤◌};
ghost use Rattle.farm_types.specs.Farm.{changed_at};
ghost use Rattle.farm_types.specs.Sums.{total_at};

use farm_types::{Cores, HostNo, Kb};

/// The total at the host's place, 0 past the last.
pub(crate) fn cores_at(totals: &[u64], host: HostNo) -> u64
    ensures { result ≡ total_at totals.now host }
{
    match totals.get(usize::from(host.0)) {
        None => 0,
        Some(total) => *total,
    }
}

/// The total at the host's place, 0 past the last.
pub(crate) fn memory_at(totals: &[u128], host: HostNo) -> u128
    ensures { result ≡ total_at totals.now host }
{
    match totals.get(usize::from(host.0)) {
        None => 0,
        Some(total) => *total,
    }
}

/// The total at the host's place rises. A sum over all slots is far below the most.
pub(crate) fn raise_cores(totals: &mut Vec<u64>, host: HostNo, cores: Cores)
    requires { total_at totals.old.items host < 2 ^ 63 }
    ensures totals { totals.new.items ≡ changed_at totals.old.items host (λ total. total + cores) }
    ensures within { cores < 2 ^ 32 }
{
    let place = usize::from(host.0);
    let more = u64::from(cores.0);
    if place < totals.len() {
        totals[place] += more;
    }
}

/// The total at the host's place rises. A sum over all slots is far below the most.
pub(crate) fn raise_memory(totals: &mut Vec<u128>, host: HostNo, memory: Kb)
    requires { total_at totals.old.items host < 2 ^ 127 }
    ensures totals { totals.new.items ≡ changed_at totals.old.items host (λ total. total + memory) }
    ensures within { memory < 2 ^ 64 }
{
    let place = usize::from(host.0);
    let more = u128::from(memory.0);
    if place < totals.len() {
        totals[place] += more;
    }
}

/// The total at the host's place falls.
pub(crate) fn lower_cores(totals: &mut Vec<u64>, host: HostNo, cores: Cores)
    requires { cores ≤ total_at totals.old.items host }
    ensures { totals.new.items ≡ changed_at totals.old.items host (λ total. total - cores) }
{
    let place = usize::from(host.0);
    if place < totals.len() {
        totals[place] -= u64::from(cores.0);
    }
}

/// The total at the host's place falls.
pub(crate) fn lower_memory(totals: &mut Vec<u128>, host: HostNo, memory: Kb)
    requires { memory ≤ total_at totals.old.items host }
    ensures { totals.new.items ≡ changed_at totals.old.items host (λ total. total - memory) }
{
    let place = usize::from(host.0);
    if place < totals.len() {
        totals[place] -= u128::from(memory.0);
    }
}
