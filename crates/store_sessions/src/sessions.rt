//! Sessions over any keeper.

use crate::watched::Watched;
use command_line::Status;
use cue_io::{MemoryClock, MemorySink, MemorySource};
use farm_keeper::Keeper;
use farm_types::{Items, Text};
use session::run_cuebot;
use std::alloc::{AllocError, Global};
use store_work::Work;

// How many bytes a read gives and a write takes at most.
const MOST: usize = 4096;

// How many bytes a sink takes for each byte of the lines, more than a reply has.
const CAPACITY: usize = 100;

// What the clock shows, in seconds: at opening, and then for each line; the last one stays.
const READINGS: [u64; 24] = [
    0, 20, 40, 60, 80, 100, 120, 140, 160, 180, 200, 220, 240, 260, 280, 300, 320, 340, 360, 380,
    400, 420, 440, 460,
];

/// What a session told: its status, what it wrote, and which of the keeper's calls failed, by their numbers from 1.
#[derive(Drop)]
pub struct Told {
    pub status: Status,
    pub written: Vec<u8>,
    pub failed: Vec<u64>,
}

/// A session of these lines, whose keeper's call of the number `failing`, counted from 1, fails.
#[derive(Drop)]
pub struct Session<'a> {
    lines: &'a [u8],
    failing: Option<u64>,
    told: Option<Result<Told, AllocError>>,
}

impl<'a> Session<'a> {
    pub fn of(lines: &'a [u8], failing: Option<u64>) -> Session<'a> {
        Session {
            lines,
            failing,
            told: None,
        }
    }

    /// What it told, or where it wasn't run what one tells over a store that can't be opened.
    pub fn into_told(self, alloc: Global) -> Result<Told, AllocError> {
        match self.told {
            Some(told) => told,
            None => Ok(Told {
                status: Status::StoreFailed,
                written: Vec::new(alloc),
                failed: Vec::new(alloc),
            }),
        }
    }
}

impl Work for Session<'_> {
    fn work<K: Keeper>(&mut self, alloc: Global, keeper: K) -> K {
        let (told, keeper) = run(alloc, keeper, self.failing, self.lines);
        self.told = Some(told);
        keeper
    }
}

// What a session reads, writes and is told, but for its keeper.
#[derive(Drop)]
struct Edges {
    source: MemorySource,
    sink: MemorySink,
    clock: MemoryClock,
    words: Items<Text>,
}

/// Runs a session of these lines over a keeper, whose call of the number `failing` fails, and hands the keeper back.
pub fn run<K: Keeper>(
    alloc: Global,
    keeper: K,
    failing: Option<u64>,
    lines: &[u8],
) -> (Result<Told, AllocError>, K) {
    match make_edges(alloc, lines) {
        Ok(edges) => run_between(alloc, edges, keeper, failing),
        Err(fault) => (Err(fault), keeper),
    }
}

fn make_edges(alloc: Global, lines: &[u8]) -> Result<Edges, AllocError> {
    let capacity = lines.len().saturating_mul(CAPACITY);
    Ok(Edges {
        source: MemorySource::make(alloc, lines, MOST, &[])?,
        sink: MemorySink::make(alloc, MOST, capacity, &[])?,
        clock: MemoryClock::make(alloc, &READINGS)?,
        words: words(alloc)?,
    })
}

fn run_between<K: Keeper>(
    alloc: Global,
    mut edges: Edges,
    keeper: K,
    failing: Option<u64>,
) -> (Result<Told, AllocError>, K) {
    let (status, watched, _seat) = run_cuebot(
        alloc,
        edges.words.as_slice(),
        &mut edges.source,
        &mut edges.sink,
        Watched::over(alloc, keeper, failing),
        &mut edges.clock,
    );
    let (keeper, failed) = watched.into_parts();
    (told_of(alloc, status, &edges.sink, failed), keeper)
}

fn told_of(
    alloc: Global,
    status: Status,
    sink: &MemorySink,
    failed: Vec<u64>,
) -> Result<Told, AllocError> {
    Ok(Told {
        status,
        written: Vec::from_slice(alloc, sink.written())?,
        failed,
    })
}

// The words of a session over a store.
fn words(alloc: Global) -> Result<Items<Text>, AllocError> {
    let mut words = Items::new(alloc);
    words.push(Text::from_str(alloc, "script")?)?;
    words.push(Text::from_str(alloc, ":memory:")?)?;
    Ok(words)
}
