//! The ready jobs of one show, in order.

ghost use Rattle.std.specs.Prelude.{◌≡◌, ◌≤◌, ◌<◌, ◌*◌, [], length, map, nat_lt, ◌==◌, IfOk};
ghost use Rattle.std.specs.List.{insert, position_or_len};
ghost use Rattle.std.specs.Vec.{vec_capacity};
ghost use Rattle.farm_types.specs.Rising.{IsRising};
ghost use Rattle.job_index.specs.Keys.{CanPut, drop_key, itself, job_of, put_key, sorted, AreKeys};
ghost use Rattle.job_index.specs.declared.limits.TheConstants.{MOST_JOBS};

use crate::copies::plain_copies;
use crate::limits::MOST_JOBS;
use farm_types::JobNo;
use std::alloc::{AllocError, Global};
use std::marker::Model;

/// A job's number is below this.
pub const JOB_NUMBERS: u64 = 4_294_967_296;

/// Jobs in the order of their keys, which contracts see as the list of the keys: by priority, the highest first, then by
/// number.
#[derive(Debug, Drop)]
pub struct ReadyJobs {
    keys: Vec<u64>,
    jobs: Vec<JobNo>,
}

impl Model for ReadyJobs {
    ghost use Rattle.std.specs.Prelude.{ℕ, List};
    ghost use Rattle.std.specs.Vec.{vec_capacity};
    ghost use Rattle.job_index.specs.Keys.{KeepsOrder};

    ghost Value = { List ℕ };

    ghost view = { λ ready. ready.keys.items };

    ghost invariant = { λ ready. KeepsOrder ready.keys.items ready.jobs.items (vec_capacity ready.keys) (vec_capacity ready.jobs) };
}

impl ReadyJobs {
    /// No jobs. It takes the memory of all at once.
    pub fn make(alloc: Global) -> Result<ReadyJobs, AllocError>
        ensures { IfOk result (λ ready. ready ≡ []) }
    {
        Ok(ReadyJobs {
            keys: Vec::with_capacity(alloc, MOST_JOBS as usize)?,
            jobs: Vec::with_capacity(alloc, MOST_JOBS as usize)?,
        })
    }

    /// The jobs of these keys, none of which stands twice.
    pub fn of_keys(alloc: Global, keys: Vec<u64>) -> Result<ReadyJobs, AllocError>
        requires { AreKeys keys.items }
        ensures { IfOk result (λ ready. ready ≡ sorted keys.items) }
    {
        let mut sorted = keys;
        sorted.sort_unstable();
        Ok(ReadyJobs {
            keys: plain_copies(alloc, sorted.as_slice(), MOST_JOBS)?,
            jobs: jobs_of(alloc, sorted.as_slice())?,
        })
    }

    /// The jobs' numbers.
    pub fn jobs(&self) -> &[JobNo]
        ensures { result.now ≡ map job_of self.now }
    {
        self.jobs.as_slice()
    }

    /// The job of a key that isn't there goes to its place. It takes no memory.
    pub fn put(&mut self, key: u64)
        requires { CanPut key self.old }
        ensures { self.new ≡ put_key key self.old }
    {
        let place = place_behind(self.keys.as_slice(), key);
        insert_at(&mut self.keys, place, key);
        insert_at(&mut self.jobs, place, job_of(key));
    }

    /// The job of a key is taken out, where it is there.
    pub fn take(&mut self, key: u64)
        ensures { self.new ≡ drop_key key self.old }
    {
        let place = place_of_key(self.keys.as_slice(), key);
        if place < self.keys.len() {
            self.keys.remove(place);
            self.jobs.remove(place);
        }
    }

    /// Equal jobs, with the same capacity.
    pub fn copy(&self, alloc: Global) -> Result<ReadyJobs, AllocError>
        ensures { IfOk result (λ copy. copy ≡ self.now) }
    {
        let mut copy = ReadyJobs::make(alloc)?;
        copy.keys.extend_from_slice(self.keys.as_slice())?;
        copy.jobs.extend_from_slice(self.jobs.as_slice())?;
        Ok(copy)
    }
}

// The numbers of the keys' jobs, with capacity for all.
fn jobs_of(alloc: Global, keys: &[u64]) -> Result<Vec<JobNo>, AllocError>
    ensures items { IfOk result (λ jobs. jobs.items ≡ map job_of keys.now) }
    ensures capacity { IfOk result (λ jobs. MOST_JOBS ≤ vec_capacity jobs) }
{
    let mut jobs = Vec::with_capacity(alloc, MOST_JOBS as usize)?;
    for key in keys {
        jobs.push(job_of(*key))?;
    }
    Ok(jobs)
}

// The place of the first key above one.
fn place_behind(keys: &[u64], key: u64) -> usize
    requires { IsRising itself 0 keys.now 18446744073709551616 }
    ensures value { result ≡ position_or_len (λ k. nat_lt key k) keys.now }
    ensures bound { result ≤ length keys.now }
{
    keys.partition_point(|other| *other <= key)
}

// The place of a key, and how many there are where it isn't among them.
fn place_of_key(keys: &[u64], key: u64) -> usize
    requires { IsRising itself 0 keys.now 18446744073709551616 }
    ensures { result ≡ position_or_len (λ k. k == key) keys.now }
{
    keys.binary_search(&key).unwrap_or(keys.len())
}

// Puts an item at a place, and the later ones behind it. There is capacity for it.
fn insert_at<T: Drop>(items: &mut Vec<T>, place: usize, item: T)
    requires within { place ≤ length items.old.items }
    requires room { length items.old.items < vec_capacity items.old }
    ensures items { items.new.items ≡ insert items.old.items place item }
    ensures capacity { vec_capacity items.old ≤ vec_capacity items.new }
{
    items.insert(place, item).unwrap();
}

// The number of a key's job.
fn job_of(key: u64) -> JobNo
    ensures { result ≡ job_of key }
{
    JobNo((key % JOB_NUMBERS) as u32)
}
