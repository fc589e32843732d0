//! The daemon of a render host. It starts the attempts that a scheduler orders, as child programs, and reports them: `rqd ADDRESS PORT NAME ALLOC CORES
//! MEMORY NONCE ROUNDS`.
#![tactic(auto)]

use child_spawner::{ChildSpawner, SleepRest};
use command_line::{Status, exit_code, words_of};
use dialer::NetDialer;
use rqd_session::run_program;
use std::net::Net;
use std::process::{ExitCode, Processes, SystemProcess};
use std::rt::Runtime;
use std::thread::Threads;

fn main(rt: HostRuntime) -> ExitCode {
    exit_code(run(&rt))
}

// Runs the program over the machine's network and its processes.
fn run<R: Runtime + AllocGlobal + Net + Processes<Started = SystemProcess> + Threads>(
    rt: &R,
) -> Status {
    let Ok(words) = words_of(rt) else {
        return Status::NoMemory;
    };
    let Ok(net) = rt.clone() else {
        return Status::NoMemory;
    };
    let Ok(system) = rt.clone() else {
        return Status::NoMemory;
    };
    let Ok(clock) = rt.clone() else {
        return Status::NoMemory;
    };
    let mut dialer = NetDialer::make(net);
    let mut spawner = ChildSpawner::make(rt.alloc(), system);
    let mut rest = SleepRest::make(clock);
    let (status, _connection) = run_program(
        rt.alloc(),
        words.as_slice(),
        &mut dialer,
        &mut spawner,
        &mut rest,
    );
    status
}
