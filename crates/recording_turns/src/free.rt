//! What is free of a host, by the farm.

ghost use Rattle.std.specs.Prelude.{◌≡◌, ◌-◌, ◌≤◌};
ghost use Rattle.farm_types.specs.declared.limits.TheConstants.{MOST_CORES, MOST_MEMORY};
ghost use Rattle.farm_types.specs.Sums.{used_cores, used_memory};
ghost use Rattle.frame_words.specs.Bits.{FitsHost};
ghost use Rattle.booking_rule.specs.Link.{host_cores, host_memory};

use entry_law::used_is_running;
use farm_core::Farm;
use farm_stands::host_size;
use farm_types::{Cores, HostNo, Kb};
use frame_words::HostWord;

/// A host's size less what its running frames use, which is nothing where there is no such host.
pub(crate) fn free_word(farm: &Farm, host: HostNo) -> HostWord
    ensures cores { result.cores ≡ host_cores farm.now host - used_cores farm.now host }
    ensures memory { result.memory ≡ host_memory farm.now host - used_memory farm.now host }
    ensures fits { FitsHost result }
    ensures within { (result.cores ≤ MOST_CORES) × (result.memory ≤ MOST_MEMORY) }
{
    farm.kept();
    used_is_running();
    let size = host_size(farm, host);
    let taken = farm.used(host);
    HostWord {
        cores: cores_left(size.cores, taken.0),
        memory: memory_left(size.memory, taken.1),
    }
}

fn cores_left(cores: Cores, used: Cores) -> Cores
    requires { used ≤ cores }
    ensures { result ≡ cores - used }
{
    Cores(cores.0 - used.0)
}

fn memory_left(memory: Kb, used: Kb) -> Kb
    requires { used ≤ memory }
    ensures { result ≡ memory - used }
{
    Kb(memory.0 - used.0)
}
