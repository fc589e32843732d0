//! Runs lives of the daemon that its case files tell, and writes a line for each: `ok`, or `FAILED` and what differed first.
#![tactic(auto)]

mod attempts;
mod case;
mod difference;
mod life;
mod places;
mod spawner_calls;

use case_text::{Cases, run_files};
use difference::difference;
use std::alloc::{AllocError, Global};
use std::io;
use std::process::ExitCode;

fn main(rt: HostRuntime) -> io::Result<ExitCode> {
    if run_files(&rt, &Lives)? {
        Ok(ExitCode::SUCCESS)
    } else {
        Ok(ExitCode::FAILURE)
    }
}

// Runs cases as lives of the daemon.
struct Lives;

impl Cases for Lives {
    fn difference(
        &self,
        alloc: Global,
        shared: &str,
        told: &str,
    ) -> Result<Option<String>, AllocError> {
        difference(alloc, shared, told)
    }
}
