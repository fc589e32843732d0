//! A session that ended.

use crate::case::Case;
use crate::store::keeper_of;
use command_line::Status;
use cue_io::{MemoryClock, MemorySink, MemorySource};
use farm_keeper::{MemoryKeeper, Row};
use farm_types::{Items, Text};
use session::run_cuebot;
use std::alloc::{AllocError, Global};

/// A session that ended, and what it ran over.
#[derive(Drop)]
pub struct Ended {
    pub status: Status,
    pub source: MemorySource,
    pub sink: MemorySink,
    pub keeper: MemoryKeeper,
}

/// Runs the session that a case tells, over these rows and for these requests, where these calls of the keeper fail.
pub fn run(
    alloc: Global,
    case: &Case,
    rows: &[Row],
    requests: &[u8],
    failing: &[u64],
) -> Result<Ended, AllocError> {
    let source = case.reads.source(alloc, requests)?;
    let sink = case.writes.sink(alloc)?;
    let words = case.words.as_slice();
    run_over(alloc, case, words, rows, failing, source, sink)
}

/// Opens again, for these requests, the rows that a session of the case left, whatever its words are.
pub fn run_again(
    alloc: Global,
    case: &Case,
    rows: &[Row],
    requests: &[u8],
) -> Result<Ended, AllocError> {
    let source = case.reads.source(alloc, requests)?;
    let sink = case.writes.sink(alloc)?;
    let words = script_words(alloc)?;
    run_over(alloc, case, words.as_slice(), rows, &[], source, sink)
}

/// Runs the session that a case tells, over these rows, where these reads and these writes fail.
pub fn run_failing(
    alloc: Global,
    case: &Case,
    rows: &[Row],
    reads: &[u64],
    writes: &[u64],
) -> Result<Ended, AllocError> {
    let source = case.reads.failing_source(alloc, &case.requests, reads)?;
    let sink = case.writes.failing_sink(alloc, writes)?;
    let words = case.words.as_slice();
    run_over(alloc, case, words, rows, &[], source, sink)
}

// The words of a session over a store of rows.
fn script_words(alloc: Global) -> Result<Items<Text>, AllocError> {
    let mut words = Items::new(alloc);
    words.push(Text::from_str(alloc, "script")?)?;
    words.push(Text::from_str(alloc, ":memory:")?)?;
    Ok(words)
}

fn run_over(
    alloc: Global,
    case: &Case,
    words: &[Text],
    rows: &[Row],
    failing: &[u64],
    mut source: MemorySource,
    mut sink: MemorySink,
) -> Result<Ended, AllocError> {
    let mut clock = clock_of(alloc, case)?;
    let keeper = keeper_of(alloc, words, rows, failing)?;
    let (status, keeper, _seat) = run_cuebot(
        alloc,
        words,
        &mut source,
        &mut sink,
        keeper,
        &mut clock,
    );
    Ok(Ended {
        status,
        source,
        sink,
        keeper,
    })
}

// The case's clock, or one that shows 0 where it tells no reading.
fn clock_of(alloc: Global, case: &Case) -> Result<MemoryClock, AllocError> {
    if case.clock.is_empty() {
        MemoryClock::make(alloc, &[0])
    } else {
        MemoryClock::make(alloc, &case.clock)
    }
}
