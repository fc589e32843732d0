//! Sources and sinks in memory, by how they move bytes.

use crate::line_fault::LineFault;
use crate::numbers::numbers_of;
use cue_io::{MemorySink, MemorySource};
use std::alloc::{AllocError, Global};

// How many bytes a call moves at most, where nothing is told of it.
const MOST: usize = 4096;

// How many bytes a sink takes, where nothing is told of it.
const CAPACITY: usize = 1048576;

/// How many bytes a call of a source or a sink moves at most, how many a sink takes in all, and which calls fail, by their number from 1.
#[derive(Drop)]
pub struct Moves {
    pub most: usize,
    pub capacity: usize,
    pub fails: Vec<u64>,
}

impl Moves {
    /// What moves bytes without a fault.
    pub fn new(alloc: Global) -> Moves {
        Moves {
            most: MOST,
            capacity: CAPACITY,
            fails: Vec::new(alloc),
        }
    }

    /// A source of these bytes, in reads of at least a byte.
    pub fn source(&self, alloc: Global, bytes: &[u8]) -> Result<MemorySource, AllocError> {
        self.failing_source(alloc, bytes, &self.fails)
    }

    /// The same, whose calls of these numbers fail.
    pub fn failing_source(
        &self,
        alloc: Global,
        bytes: &[u8],
        fails: &[u64],
    ) -> Result<MemorySource, AllocError> {
        MemorySource::make(alloc, bytes, self.most.max(1), fails)
    }

    /// A sink.
    pub fn sink(&self, alloc: Global) -> Result<MemorySink, AllocError> {
        self.failing_sink(alloc, &self.fails)
    }

    /// The same, whose calls of these numbers fail.
    pub fn failing_sink(&self, alloc: Global, fails: &[u64]) -> Result<MemorySink, AllocError> {
        MemorySink::make(alloc, self.most, self.capacity, fails)
    }
}

/// What words tell of it, as `2 capacity 4 failing 3 5`.
pub fn moves_of(alloc: Global, text: &str) -> Result<Moves, LineFault> {
    let (text, failing) = text.split_once(" failing ").unwrap_or((text, ""));
    let (most, capacity) = text.split_once(" capacity ").unwrap_or((text, ""));
    let Ok(most) = most.parse::<usize>() else {
        return Err(LineFault::Malformed);
    };
    let capacity = capacity.parse::<usize>().unwrap_or(CAPACITY);
    let fails = numbers_of(alloc, failing)?;
    Ok(Moves {
        most,
        capacity,
        fails,
    })
}
