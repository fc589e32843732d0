//! The operator's tool. It sends one request to a scheduler, by its words, and prints the reply: `cue ADDRESS PORT COMMAND`, and `cue ADDRESS PORT help`
//! for the commands.
#![tactic(auto)]

use command_line::{Status, exit_code, words_of};
use cue_io::OutputSink;
use cue_tool::{DiskFiles, run_program};
use dialer::NetDialer;
use std::io;
use std::net::Net;
use std::process::ExitCode;
use std::rt::Runtime;

fn main(rt: HostRuntime) -> ExitCode {
    exit_code(run(&rt))
}

// Runs the program over the machine's network, its files and standard output.
fn run<R: Runtime + AllocGlobal + Net>(rt: &R) -> Status {
    let Ok(words) = words_of(rt) else {
        return Status::NoMemory;
    };
    let Ok(net) = rt.clone() else {
        return Status::NoMemory;
    };
    let Ok(disk) = rt.clone() else {
        return Status::NoMemory;
    };
    let mut dialer = NetDialer::make(net);
    let mut files = DiskFiles::make(disk);
    let mut out = OutputSink::make(io::writer(rt));
    let (status, _connection) = run_program(
        rt.alloc(),
        words.as_slice(),
        &mut dialer,
        &mut files,
        &mut out,
    );
    status
}
