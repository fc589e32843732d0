//! Two threads take cores of one subscription a million times each, without a lock, and what they share is then as it was. The
//! lines that it prints are the same whatever the threads' order.
#![tactic(auto)]

mod taking;
mod words;

use std::io;
use std::process::ExitCode;
use words::shared_words;

fn main(rt: HostRuntime) -> io::Result<ExitCode> {
    if shared_words(&rt)? {
        Ok(ExitCode::SUCCESS)
    } else {
        Ok(ExitCode::FAILURE)
    }
}
