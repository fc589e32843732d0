//! Runs sessions over stores whose disks, in memory, stop at each of their calls in turn, opens again what each stop left, and writes what was there.
#![tactic(auto)]

use std::io;
use std::process::ExitCode;
use store_sessions::run_sessions;

fn main(rt: HostRuntime) -> io::Result<ExitCode> {
    if run_sessions(&rt)? {
        Ok(ExitCode::SUCCESS)
    } else {
        Ok(ExitCode::FAILURE)
    }
}
