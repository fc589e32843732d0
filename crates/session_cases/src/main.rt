//! Runs the sessions of its case files, and writes a line for each: `ok`, or `FAILED` and what differed first.
#![tactic(auto)]

use case_files::run_sessions;
use std::io;
use std::process::ExitCode;

fn main(rt: HostRuntime) -> io::Result<ExitCode> {
    if run_sessions(&rt)? {
        Ok(ExitCode::SUCCESS)
    } else {
        Ok(ExitCode::FAILURE)
    }
}
