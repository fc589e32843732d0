//! Files of rows, each of which tells a call: `GIVEN -> ANSWER`.

use crate::line_fault::LineFault;
use std::alloc::Global;
use std::rt::Runtime;
use std::{fs, io};

/// Calls that rows tell of.
pub trait Calls {
    /// The file of a call's rows.
    fn file_name(&self) -> &'static str;

    /// What the call answers to what is given.
    fn answer(&self, alloc: Global, given: &str) -> Result<String, LineFault>;
}

/// Makes the calls that the rows of each one's file tell, in the folder that the program is started in, and writes a line for each row: `ok`, or `FAILED` and what
/// came. It says whether all came as they tell.
pub fn run_calls<R: Runtime + AllocGlobal, C: Calls>(rt: &R, calls: &[C]) -> io::Result<bool> {
    let mut all_well = true;
    for call in calls {
        let name = call.file_name();
        let text = fs::read_to_string(rt, name)?;
        if !run_rows(rt, call, name, text.as_str())? {
            all_well = false;
        }
    }
    Ok(all_well)
}

// Runs the rows of a call, and says whether all came as they tell. A line in brackets is a remark.
fn run_rows<R: Print + AllocGlobal, C: Calls>(
    rt: &R,
    call: &C,
    name: &str,
    text: &str,
) -> io::Result<bool> {
    let mut all_well = true;
    for row in text.lines() {
        if row.is_empty() || row.starts_with('(') {
            continue;
        }
        if !run_row(rt, call, name, row)? {
            all_well = false;
        }
    }
    Ok(all_well)
}

// Runs a row, and says whether it came as it tells.
fn run_row<R: Print + AllocGlobal, C: Calls>(
    rt: &R,
    call: &C,
    name: &str,
    row: &str,
) -> io::Result<bool> {
    let Some((given, told)) = row.split_once(" -> ") else {
        println!(rt; "FAILED {name}: {row}: a malformed row")?;
        return Ok(false);
    };
    match call.answer(rt.alloc(), given) {
        Ok(came) => tell(rt, name, row, told, came.as_str()),
        Err(fault) => {
            println!(rt; "FAILED {name}: {row}: {fault}")?;
            Ok(false)
        }
    }
}

// Tells whether what came is what the row tells.
fn tell<R: Print>(rt: &R, name: &str, row: &str, told: &str, came: &str) -> io::Result<bool> {
    if came == told {
        println!(rt; "ok {name}: {row}")?;
        Ok(true)
    } else {
        println!(rt; "FAILED {name}: {row}: it is {came}")?;
        Ok(false)
    }
}
