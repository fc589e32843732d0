//! Runs cases of files that keep a farm, and of files that don't, and writes a line for each: `ok`, or `FAILED` and what differed first.
#![tactic(auto)]

mod answering;
mod case;
mod difference;
mod folder;
mod opening;
mod place;
mod rows;

use case_text::{Cases, run_files};
use difference::difference;
use std::alloc::{AllocError, Global};
use std::io;
use std::process::ExitCode;

fn main(rt: HostRuntime) -> io::Result<ExitCode> {
    if run_files(&rt, &FileCases { rt: &rt })? {
        Ok(ExitCode::SUCCESS)
    } else {
        Ok(ExitCode::FAILURE)
    }
}

// Runs cases over files of the machine.
#[derive(Drop)]
struct FileCases<'a> {
    rt: &'a HostRuntime,
}

impl Cases for FileCases<'_> {
    fn difference(
        &self,
        _: Global,
        shared: &str,
        told: &str,
    ) -> Result<Option<String>, AllocError> {
        difference(self.rt, shared, told)
    }
}
