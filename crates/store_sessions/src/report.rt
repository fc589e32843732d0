//! What is run, and what is written of it.

use crate::fault::Fault;
use crate::series::{Count, Disks, stop_each};
use std::rt::Runtime;
use std::{env, fs, io};

// The sessions that are run where the program's words name none, by their files in the folder that it is started in, and the disks that stop.
const RUNS: [(&str, Disks); 3] = [
    ("studio.lines", Disks::Both),
    ("studio.lines", Disks::Database),
    ("every_request.lines", Disks::Both),
];

const DISKS: [Disks; 3] = [Disks::Both, Disks::Log, Disks::Database];

/// Stops sessions at each call of their disks in turn, and writes a table for each: the sessions of the files that the program's words name, or of
/// its own. It says whether all that was left was right.
pub fn run_sessions<R: Runtime + AllocGlobal>(rt: &R) -> io::Result<bool> {
    let names = words_of(rt)?;
    if names.is_empty() {
        return run_own(rt);
    }
    let mut all_well = true;
    for name in names.as_slice() {
        for disks in DISKS {
            all_well = run_file(rt, name.as_str(), disks)? && all_well;
        }
    }
    Ok(all_well)
}

fn words_of<R: Runtime + AllocGlobal>(rt: &R) -> io::Result<Vec<String>> {
    let mut words = Vec::new(rt.alloc());
    for word in env::args(rt)?.skip(1) {
        words.push(word)?;
    }
    Ok(words)
}

fn run_own<R: Runtime + AllocGlobal>(rt: &R) -> io::Result<bool> {
    let mut all_well = true;
    for (name, disks) in RUNS {
        all_well = run_file(rt, name, disks)? && all_well;
    }
    Ok(all_well)
}

fn run_file<R: Runtime + AllocGlobal>(rt: &R, name: &str, disks: Disks) -> io::Result<bool> {
    let lines = fs::read(rt, name)?;
    run_session(rt, name, &lines, disks)
}

fn run_session<R: Print + AllocGlobal>(
    rt: &R,
    name: &str,
    lines: &[u8],
    disks: Disks,
) -> io::Result<bool> {
    match stop_each(rt.alloc(), lines, disks) {
        Ok(counts) => {
            println!(rt; "ok {name}: {}", disks.name())?;
            write_counts(rt, &counts)?;
            Ok(true)
        }
        Err(fault) => {
            println!(rt; "FAILED {name}: {}: {fault}", disks.name())?;
            Ok(false)
        }
    }
}

fn write_counts<R: Print>(rt: &R, counts: &[Count]) -> io::Result<()> {
    for (line, count) in counts.iter().enumerate() {
        let Count {
            stops,
            without,
            with,
        } = *count;
        if stops > 0 {
            println!(rt;
                "  line {line}: {stops} stops left {without} without the batch, {with} with it"
            )?;
        }
    }
    Ok(())
}
