//! Files of cases.

use crate::file_names::file_names;
use std::alloc::{AllocError, Global};
use std::rt::Runtime;
use std::{fs, io};

/// What runs the cases of files.
pub trait Cases {
    /// What differs first from what a case tells, behind the lines above the first heading of its file.
    fn difference(
        &self,
        alloc: Global,
        shared: &str,
        told: &str,
    ) -> Result<Option<String>, AllocError>;
}

/// Runs the cases of the files that the program's words name, or where there are no words of those of the folder whose names end in `.case`, and
/// writes a line for each: `ok`, or `FAILED` and what differed first. It says whether there was a file and all went as they tell.
pub fn run_files<R: Runtime + AllocGlobal, C: Cases>(rt: &R, cases: &C) -> io::Result<bool> {
    let names = file_names(rt)?;
    if names.is_empty() {
        println!(rt; "FAILED: no file of cases is here")?;
        return Ok(false);
    }
    let mut all_well = true;
    for name in names.as_slice() {
        let text = fs::read_to_string(rt, name.as_str())?;
        if !run_file(rt, cases, name.as_str(), text.as_str())? {
            all_well = false;
        }
    }
    Ok(all_well)
}

// Runs the cases of a file, and says whether there was one and all went as they tell. What stands above the first
// heading belongs to each case.
fn run_file<R: Print + AllocGlobal, C: Cases>(
    rt: &R,
    cases: &C,
    name: &str,
    text: &str,
) -> io::Result<bool> {
    let Some((shared, told)) = text.split_once("\n# ") else {
        println!(rt; "FAILED {name}: no case stands in it")?;
        return Ok(false);
    };
    let mut all_well = true;
    for case in told.split("\n# ") {
        let (heading, told) = case.split_once('\n').unwrap_or((case, ""));
        if let Some(found) = cases.difference(rt.alloc(), shared, told)? {
            println!(rt; "FAILED {name}: {heading}: {found}")?;
            all_well = false;
        } else {
            println!(rt; "ok {name}: {heading}")?;
        }
    }
    Ok(all_well)
}
