//! A life that ended.

use crate::case::Case;
use crate::places::place_lines;
use command_line::Status;
use cue_io::{MemorySink, MemorySource};
use dialer::{MemoryDialer, MemoryLink};
use rqd_launcher::{MemorySpawner, Rest};
use rqd_session::{run_program, run_rqd};
use std::alloc::{AllocError, Global};

/// A life that ended, and what it ran over: the source and the sink, where there was a connection, the spawner, and the places that it connected to.
#[derive(Drop)]
pub struct Life {
    pub status: Status,
    pub ends: Option<(MemorySource, MemorySink)>,
    pub spawner: MemorySpawner,
    pub places: String,
}

// A pause that takes no time.
#[derive(Drop)]
struct NoPause;

impl Rest for NoPause {
    fn rest(&mut self) {}
}

/// Runs the life that a case tells: the whole program, or its call alone.
pub fn run(alloc: Global, case: &Case) -> Result<Life, AllocError> {
    if case.connects {
        run_connecting(alloc, case)
    } else {
        run_call(alloc, case)
    }
}

// Runs the program over a dialer in memory.
fn run_connecting(alloc: Global, case: &Case) -> Result<Life, AllocError> {
    let link = if case.is_reached {
        Some(link_of(alloc, case)?)
    } else {
        None
    };
    let mut dialer = MemoryDialer::make(alloc, link);
    let mut spawner = spawner_of(alloc, case)?;
    let words = case.words.as_slice();
    let (status, ends) = run_program(alloc, words, &mut dialer, &mut spawner, &mut NoPause);
    Ok(Life {
        status,
        ends,
        spawner,
        places: place_lines(alloc, &dialer)?,
    })
}

// Runs the call over a source and a sink in memory.
fn run_call(alloc: Global, case: &Case) -> Result<Life, AllocError> {
    let mut source = case.reads.source(alloc, &case.replies)?;
    let mut sink = case.writes.sink(alloc)?;
    let mut spawner = spawner_of(alloc, case)?;
    let words = case.words.as_slice();
    let status = run_rqd(
        alloc,
        words,
        &mut source,
        &mut sink,
        &mut spawner,
        &mut NoPause,
    );
    Ok(Life {
        status,
        ends: Some((source, sink)),
        spawner,
        places: String::new(alloc),
    })
}

fn spawner_of(alloc: Global, case: &Case) -> Result<MemorySpawner, AllocError> {
    MemorySpawner::make(alloc, &case.exits, &case.failing_calls)
}

// How a connection moves what the case tells.
fn link_of(alloc: Global, case: &Case) -> Result<MemoryLink, AllocError> {
    Ok(MemoryLink {
        bytes: Vec::from_slice(alloc, &case.replies)?,
        read_most: case.reads.most,
        failing_reads: Vec::from_slice(alloc, &case.reads.fails)?,
        capacity: case.writes.capacity,
        write_most: case.writes.most,
        failing_writes: Vec::from_slice(alloc, &case.writes.fails)?,
    })
}
