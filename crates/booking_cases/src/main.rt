//! Runs the steps on booking words that files of cases tell, and writes a line for each case: `ok`, or `FAILED` and what differed first.
#![tactic(auto)]

mod advance;
mod answers;
mod case;
mod commits;
mod difference;
mod dispatcher;
mod held;
mod opening;
mod part;
mod passing;
mod plan;
mod play;
mod reader;
mod said;
mod splitting;
mod step;
mod store_rows;

use case_text::run_files;
use difference::BookingCases;
use std::io;
use std::process::ExitCode;

fn main(rt: HostRuntime) -> io::Result<ExitCode> {
    if run_files(&rt, &BookingCases)? {
        Ok(ExitCode::SUCCESS)
    } else {
        Ok(ExitCode::FAILURE)
    }
}
