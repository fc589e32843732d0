//! Stops at each call in turn.

use crate::fault::{Fault, wrong};
use crate::stops::{Found, stop_at};
use std::alloc::{AllocError, Global};
use store_work::Stop;

/// Which of the two disks stop.
#[derive(Clone, Copy, Debug, PartialEq, Eq)]
pub enum Disks {
    Both,
    Log,
    Database,
}

impl Disks {
    // Where they stop after so many calls each.
    fn stop(self, calls: u64) -> Stop {
        match self {
            Disks::Both => Stop {
                log: calls,
                database: calls,
            },
            Disks::Log => Stop {
                log: calls,
                ..Stop::NEVER
            },
            Disks::Database => Stop {
                database: calls,
                ..Stop::NEVER
            },
        }
    }

    pub fn name(self) -> &'static str {
        match self {
            Disks::Both => "both disks stop",
            Disks::Log => "the log's disk stops",
            Disks::Database => "the database's disk stops",
        }
    }
}

/// How many stops came at a line, and how many of the ways in which they may leave the files gave the rows without the batch that was cut, and with
/// it.
#[derive(Clone, Copy, Debug, PartialEq, Eq)]
pub struct Count {
    pub stops: u64,
    pub without: u64,
    pub with: u64,
}

// More calls than any session makes.
const MOST_CALLS: u64 = 1000000;

/// Stops a session of these lines after no call, after one, and so on, until it ends before the stop. The counts are those of the opening, of each
/// line, and of the end behind the last one.
pub fn stop_each(alloc: Global, lines: &[u8], disks: Disks) -> Result<Vec<Count>, Fault> {
    let mut counts = Vec::new(alloc);
    for calls in 0..MOST_CALLS {
        let Some(found) = stop_at(alloc, lines, disks.stop(calls))? else {
            return Ok(counts);
        };
        add_stop(&mut counts, found)?;
    }
    Err(wrong(alloc, "it doesn't end"))
}

fn add_stop(counts: &mut Vec<Count>, found: Found) -> Result<(), AllocError> {
    if counts.len() <= found.line {
        counts.resize(
            found.line.saturating_add(1),
            Count {
                stops: 0,
                without: 0,
                with: 0,
            },
        )?;
    }
    if let Some(count) = counts.get_mut(found.line) {
        count.stops = count.stops.saturating_add(1);
        count.without = count.without.saturating_add(found.without);
        count.with = count.with.saturating_add(found.with);
    }
    Ok(())
}
