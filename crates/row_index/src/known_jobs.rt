//! What is known of the jobs beside their rows.

ghost use Rattle.std.specs.Prelude.{◌≡◌, ◌==◌, ◌++◌, ◌∷◌, [], true, false, bytes_eq, length, slice_get, OnOk, OnErr};
ghost use Rattle.std.specs.List.{list_any};
ghost use Rattle.farm_types.specs.Farm.{changed_at};
ghost use Rattle.row_index.specs.Index.{known_with, with_frame_left};

use crate::names::Names;
use farm_types::{JobRow, JobState, Text};
use std::alloc::{AllocError, Global};
use std::marker::Model;

/// The jobs' names, the numbers of the finished ones' finishes, and for each job whether a frame of it is left.
#[derive(Drop)]
pub struct KnownJobs {
    names: Names,
    finished: Vec<u64>,
    left: Vec<bool>,
}

impl Model for KnownJobs {
    ghost use Rattle.row_index.specs.Index.{JobsKnown};

    ghost Value = { JobsKnown };

    ghost view = { λ k. record { names = k.names; finished = k.finished.items; left = k.left.items } };
}

impl KnownJobs {
    /// Of no jobs.
    pub fn new(alloc: Global) -> KnownJobs
        ensures { result ≡ record { names = []; finished = []; left = [] } }
    {
        KnownJobs {
            names: Names::new(alloc),
            finished: Vec::new(alloc),
            left: Vec::new(alloc),
        }
    }

    /// Whether a job has the name.
    pub fn has_name(&self, name: &Text) -> bool
        ensures { result ≡ list_any (λ other. bytes_eq other name.now) self.now.names }
    {
        self.names.has(name)
    }

    /// Whether a job has that finish.
    pub fn has_finish(&self, finish: u64) -> bool
        ensures { result ≡ list_any (λ other. other == finish) self.now.finished }
    {
        has_number(self.finished.as_slice(), finish)
    }

    /// How many jobs are finished.
    pub fn finished(&self) -> usize
        ensures { result ≡ length self.now.finished }
    {
        self.finished.len()
    }

    /// For each job whether a frame of it is left.
    pub fn left(&self) -> &[bool]
        ensures { result.now ≡ self.now.left }
    {
        self.left.as_slice()
    }

    /// One more job, of a name that isn't there, of which no frame is left yet. At an `Err` nothing has changed.
    pub fn add(&mut self, alloc: Global, row: &JobRow) -> Result<(), AllocError>
        requires new { list_any (λ other. bytes_eq other row.now.name) self.old.names ≡ false }
        ensures ok { OnOk result (self.new ≡ known_with row.now self.old) }
        ensures err { OnErr result (self.new ≡ self.old) }
    {
        self.finished.reserve(1)?;
        self.left.reserve(1)?;
        self.names.add(alloc, &row.name)?;
        if row.state == JobState::Finished {
            self.finished.push_reserved(row.finish);
        }
        self.left.push_reserved(false);
        Ok(())
    }

    /// A frame of the job at a place is left.
    pub fn leave(&mut self, at: usize)
        ensures { self.new ≡ with_frame_left at self.old }
    {
        mark_at(&mut self.left, at);
    }
}

// Whether the number is one of these.
fn has_number(numbers: &[u64], number: u64) -> bool
    ensures { result ≡ list_any (λ other. other == number) numbers.now }
{
    numbers.iter().any(|other| *other == number)
}

// The mark at a place is set, where there is one.
fn mark_at(marks: &mut Vec<bool>, at: usize)
    ensures { marks.new.items ≡ changed_at marks.old.items at (λ _. true) }
{
    if at < marks.len() {
        marks[at] = true;
    }
}
