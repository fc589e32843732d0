//! How child programs end.

ghost use Rattle.std.specs.Prelude.{◌≡◌};
ghost use Rattle.child_spawner.specs.Exits.{exit_of};

use farm_types::Exit;
use std::io;
use std::process::ExitStatus;

// A child that ended without a status.
const NO_STATUS: Exit = Exit {
    status: 1,
    signal: 9,
};

/// How an attempt ended, by what a wait for its child told.
pub(crate) fn exit_told(told: io::Result<ExitStatus>) -> Exit {
    match told {
        Ok(status) => exit_of(status.code()),
        Err(_) => NO_STATUS,
    }
}

// How an attempt ended whose child has this exit status.
fn exit_of(status: Option<i32>) -> Exit
    ensures { result ≡ exit_of status }
{
    match status {
        Some(status) if status >= 0 => Exit {
            status: status as u32,
            signal: 0,
        },
        _ => NO_STATUS,
    }
}
