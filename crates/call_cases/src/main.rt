//! Runs the calls that rows tell, and writes a line for each: `ok`, or `FAILED` and what came.
#![tactic(auto)]

mod fields;
mod keeping;
mod ranges;
mod recoveries;
mod rows;
mod stores;
mod streams;
mod texts;

use case_text::run_calls;
use fields::FieldCall;
use ranges::RangeCall;
use std::io;
use std::process::ExitCode;
use std::rt::Runtime;
use stores::StoreCall;
use streams::StreamCall;
use texts::TextCall;

fn main(rt: HostRuntime) -> io::Result<ExitCode> {
    if run_all(&rt)? {
        Ok(ExitCode::SUCCESS)
    } else {
        Ok(ExitCode::FAILURE)
    }
}

// Runs the rows of all calls, and says whether all came as they tell.
fn run_all<R: Runtime + AllocGlobal>(rt: &R) -> io::Result<bool> {
    let ranges = run_calls(rt, &RangeCall::ALL)?;
    let texts = run_calls(rt, &TextCall::ALL)?;
    let fields = run_calls(rt, &FieldCall::ALL)?;
    let streams = run_calls(rt, &StreamCall::ALL)?;
    let stores = run_calls(rt, &StoreCall::ALL)?;
    Ok(ranges && texts && fields && streams && stores)
}
