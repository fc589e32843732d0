//! The names of the jobs, by which a job is found without a walk.

ghost use Rattle.std.specs.Prelude.{◌≡◌, ◌≤◌, ◌<◌, ◌+◌, ◌++◌, ◌∷◌, [], ℕ, List, None, Some, not, filter, length, map};
ghost use Rattle.std.specs.Prelude.{bytes_eq, string_bytes, if◌then◌else◌, is_some, IfOk, OnOk};
ghost use Rattle.std.specs.Vec.{vec_capacity};
ghost use Rattle.job_index.specs.Names.{number_of};
ghost use Rattle.job_index.specs.declared.limits.TheConstants.{MOST_JOBS};

use crate::limits::MOST_JOBS;
use farm_types::JobNo;
use indexmap::IndexMap;
use std::alloc::{AllocError, Global};
use std::marker::Model;

/// A job's number by its name.
#[derive(Debug, Drop)]
struct NamedJob {
    name: String,
    job: JobNo,
}

impl Model for NamedJob {
    ghost use Rattle.std.specs.Prelude.{ℕ, List, string_bytes};

    ghost Value = { List ℕ × ℕ };

    ghost view = { λ named. (string_bytes named.name, named.job) };
}

impl NamedJob {
    // Whether it is the name.
    fn is(&self, name: &str) -> bool
        ensures { result ≡ bytes_eq name.now self.now.0 }
    {
        name == self.name.as_str()
    }

    // The job's number.
    fn job(&self) -> JobNo
        ensures { result ≡ self.now.1 }
    {
        self.job
    }

    // An equal name, with its number.
    fn copy(&self, alloc: Global) -> Result<NamedJob, AllocError>
        ensures { IfOk result (λ copy. copy ≡ self.now) }
    {
        Ok(NamedJob {
            name: String::from_str(alloc, self.name.as_str())?,
            job: self.job,
        })
    }
}

/// Each job's number by its name. No clause of the map says that a name that went leaves its memory to another one, so the
/// names that the map had no memory for stand in a list that has room for all. `reserve` keeps that list empty.
#[derive(Debug, Drop)]
pub struct JobNames {
    numbers: IndexMap<String, JobNo>,
    late: Vec<NamedJob>,
}

impl Model for JobNames {
    ghost use Rattle.std.specs.Prelude.{◌≤◌, ◌++◌, map, string_bytes};
    ghost use Rattle.std.specs.HashMap.{spare};
    ghost use Rattle.std.specs.Vec.{vec_capacity};
    ghost use Rattle.job_index.specs.Names as types;
    ghost use Rattle.job_index.specs.declared.limits.TheConstants.{MOST_JOBS};

    ghost Value = { types.NameList };

    ghost view = { λ names. record { pairs = map (λ e. (string_bytes e.0, e.1)) names.numbers.entries ++ names.late.items; room = spare names.numbers } };

    ghost invariant = { λ names. MOST_JOBS ≤ vec_capacity names.late };
}

impl JobNames {
    /// No names. It takes the memory of all at once.
    pub fn make(alloc: Global) -> Result<JobNames, AllocError>
        ensures none { IfOk result (λ names. names.pairs ≡ []) }
        ensures room { IfOk result (λ names. MOST_JOBS ≤ names.room) }
    {
        Ok(JobNames {
            numbers: IndexMap::with_capacity(alloc, MOST_JOBS as usize)?,
            late: Vec::with_capacity(alloc, MOST_JOBS as usize)?,
        })
    }

    /// The number of the job of that name.
    pub fn get(&self, name: &str) -> Option<JobNo>
        ensures { result ≡ number_of name.now self.now.pairs }
    {
        match self.numbers.get(name) {
            Some(job) => Some(*job),
            None => number_among(self.late.as_slice(), name),
        }
    }

    /// Takes the memory for one more name.
    pub fn reserve(&mut self) -> Result<(), AllocError>
        ensures pairs { self.new.pairs ≡ self.old.pairs }
        ensures room { OnOk result (1 ≤ self.new.room) }
    {
        self.numbers.reserve(1)
    }

    /// A name that isn't there is that of a job. It takes no memory where memory was reserved for it.
    pub fn add(&mut self, name: String, job: JobNo)
        requires new { number_of (string_bytes name) self.old.pairs ≡ None }
        requires few { length self.old.pairs < MOST_JOBS }
        ensures others { (n : List ℕ) → number_of n self.new.pairs ≡ if bytes_eq (string_bytes name) n then Some job else number_of n self.old.pairs }
        ensures count { length self.new.pairs ≡ length self.old.pairs + 1 }
        ensures room { self.old.room ≤ self.new.room + 1 }
    {
        match self.numbers.insert(name, job) {
            Ok(_) => {}
            Err(failed) => add_late(&mut self.late, failed.value),
        }
    }

    /// The name is that of no job any more.
    pub fn remove(&mut self, name: &str)
        ensures others { (n : List ℕ) → number_of n self.new.pairs ≡ if bytes_eq name.now n then None else number_of n self.old.pairs }
        ensures count { length self.new.pairs + (if is_some (number_of name.now self.old.pairs) then 1 else 0) ≤ length self.old.pairs }
        ensures room { self.old.room ≤ self.new.room }
    {
        self.numbers.swap_remove(name);
        remove_late(&mut self.late, name);
    }

    /// Equal names, with memory for all of them.
    pub fn copy(&self, alloc: Global) -> Result<JobNames, AllocError>
        ensures { IfOk result (λ copy. copy.pairs ≡ self.now.pairs) }
    {
        Ok(JobNames {
            numbers: self.numbers.clone()?,
            late: copies_of(alloc, self.late.as_slice())?,
        })
    }
}

// Equal names, with capacity for all.
fn copies_of(alloc: Global, late: &[NamedJob]) -> Result<Vec<NamedJob>, AllocError>
    ensures items { IfOk result (λ copies. copies.items ≡ late.now) }
    ensures capacity { IfOk result (λ copies. MOST_JOBS ≤ vec_capacity copies) }
{
    let mut copies = Vec::with_capacity(alloc, MOST_JOBS as usize)?;
    for named in late {
        copies.push(named.copy(alloc)?)?;
    }
    Ok(copies)
}

// The number of the first job of that name.
fn number_among(late: &[NamedJob], name: &str) -> Option<JobNo>
    ensures { result ≡ number_of name.now late.now }
{
    for named in late {
        if named.is(name) {
            return Some(named.job());
        }
    }
    None
}

// One more name, behind the others. There is room for it.
fn add_late(late: &mut Vec<NamedJob>, named: (String, JobNo))
    requires { length late.old.items < vec_capacity late.old }
    ensures items { late.new.items ≡ late.old.items ++ (string_bytes named.0, named.1) ∷ [] }
    ensures capacity { vec_capacity late.new ≡ vec_capacity late.old }
{
    let (name, job) = named;
    late.push_reserved(NamedJob { name, job });
}

// The name goes, where it is there.
fn remove_late(late: &mut Vec<NamedJob>, name: &str)
    ensures items { late.new.items ≡ filter (λ p. not (bytes_eq name.now p.0)) late.old.items }
    ensures capacity { vec_capacity late.new ≡ vec_capacity late.old }
{
    late.retain(|named| !named.is(name));
}
