//! Runs worlds that its case files tell, and writes a line for each case: `ok`, or `FAILED` and what differed first. With the word `play` it reads one
//! world from its input instead, and writes each event with what came of it.
#![tactic(auto)]

mod asks;
mod attempts;
mod entries;
mod farm;
mod head;
mod hosts;
mod lines;
mod outcome;
mod play;
mod readings;
mod replies;
mod reports;
mod stage;
mod tale;
mod told;

use case_text::{Cases, run_files};
use play::{is_play, play};
use std::alloc::{AllocError, Global};
use std::io;
use std::process::ExitCode;
use told::difference;

fn main(rt: HostRuntime) -> io::Result<ExitCode> {
    let went = if is_play(&rt)? {
        play(&rt)?
    } else {
        run_files(&rt, &Worlds)?
    };
    if went {
        Ok(ExitCode::SUCCESS)
    } else {
        Ok(ExitCode::FAILURE)
    }
}

// Runs cases as worlds.
struct Worlds;

impl Cases for Worlds {
    fn difference(
        &self,
        alloc: Global,
        shared: &str,
        told: &str,
    ) -> Result<Option<String>, AllocError> {
        difference(alloc, shared, told)
    }
}
