//! Makes the calls of the operator's tool that rows tell, and writes a line for each: `ok`, or `FAILED` and what came.
#![tactic(auto)]

mod moves;
mod programs;
mod runs;
mod words;

use case_text::{Calls, LineFault, run_calls};
use std::alloc::Global;
use std::io;
use std::process::ExitCode;

fn main(rt: HostRuntime) -> io::Result<ExitCode> {
    if run_calls(&rt, &ToolCall::ALL)? {
        Ok(ExitCode::SUCCESS)
    } else {
        Ok(ExitCode::FAILURE)
    }
}

// Calls of the tool: what its words ask, its whole calls, and the runs of its program.
#[derive(Clone, Copy, Debug, PartialEq, Eq)]
enum ToolCall {
    Words,
    Runs,
    Programs,
}

impl ToolCall {
    // All of them, in the order in which their files are read.
    const ALL: [ToolCall; 3] = [ToolCall::Words, ToolCall::Runs, ToolCall::Programs];
}

impl Calls for ToolCall {
    fn file_name(&self) -> &'static str {
        match self {
            ToolCall::Words => "tool_words.rows",
            ToolCall::Runs => "tool_runs.rows",
            ToolCall::Programs => "tool_programs.rows",
        }
    }

    fn answer(&self, alloc: Global, given: &str) -> Result<String, LineFault> {
        match self {
            ToolCall::Words => words::asked(alloc, given),
            ToolCall::Runs => runs::ran(alloc, given),
            ToolCall::Programs => programs::ran(alloc, given),
        }
    }
}
