//! Sessions as cases.

use crate::difference::difference;
use case_text::{Cases, run_files};
use std::alloc::{AllocError, Global};
use std::io;
use std::rt::Runtime;

// Runs cases as sessions of the scheduler.
struct Sessions;

impl Cases for Sessions {
    fn difference(
        &self,
        alloc: Global,
        shared: &str,
        told: &str,
    ) -> Result<Option<String>, AllocError> {
        difference(alloc, shared, told)
    }
}

/// Runs the sessions of the files that the program's words name, or where there are no words of those of the folder whose names end in `.case`, and
/// writes a line for each: `ok`, or `FAILED` and what differed first. It says whether there was a file and all went as they tell.
pub fn run_sessions<R: Runtime + AllocGlobal>(rt: &R) -> io::Result<bool> {
    run_files(rt, &Sessions)
}
