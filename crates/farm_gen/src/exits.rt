//! How the attempts of a load exit.

ghost use Rattle.std.specs.Prelude.{◌≡◌};
ghost use Rattle.farm_gen.specs.Load.{load_exit, load_status};

use farm_types::{Attempt, Exit};

/// How an attempt of a load of n frames a layer exits: with status 1 where 7 times its slot, 3 times its version and n are together divisible by 11,
/// and with status 0 elsewhere, each without a signal.
pub fn load_exit(n: u32, attempt: Attempt) -> Exit
    ensures { result ≡ load_exit n attempt }
{
    Exit {
        status: load_status(n, attempt),
        signal: 0,
    }
}

fn load_status(n: u32, attempt: Attempt) -> u32
    ensures { result ≡ load_status n attempt }
{
    let sum = 7 * u64::from(attempt.slot.0) + 3 * u64::from(attempt.version.0) + u64::from(n);
    if sum % 11 == 0 { 1 } else { 0 }
}
