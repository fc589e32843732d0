//! The books, and the calls that read one of their rows.

ghost use Rattle.std.specs.Prelude.{◌≡◌, ◌≤◌, ◌<◌, length, slice_get, option_copied, option_map, All, IfOk, IfSome, IfNone};
ghost use Rattle.farm_types.specs.Farm.{job_at, layer_at, sub_at, sub_of};
ghost use Rattle.farm_types.specs.Rising.{IsNextKey, job_key};
ghost use Rattle.farm_types.specs.Step.{lists_of};
ghost use Rattle.farm_types.specs.Sums.{booked_in, running_in, total_at};
ghost use Rattle.farm_books.specs.Books.{empty_books};
ghost use Rattle.farm_books.specs.Reads.{job_after};
ghost use Rattle.host_book.specs.Life.{life_of};
ghost use Rattle.farm_types.specs.Run.{live_at};
ghost use Rattle.std.specs.Prelude.{ℕ};
ghost use Rattle.farm_types.specs.declared.limits.TheConstants.{SLOT_LIMIT};

use crate::shows::Shows;
use alloc_tags::Allocs;
use attempt_book::Attempts;
use depend_book::Depends;
use farm_types::{
    AllocNo, AllocRow, HostNo, HostRow, JobNo, JobRow, LayerRow, ProcRow, ShowNo, ShowRow, Slot,
    SlotRow, SubNo, SubRow,
};
use host_book::{HostLife, Hosts};
use job_book::Jobs;
use limit_book::Limits;
use std::alloc::{AllocError, Global};
use std::marker::Model;
use sub_ledger::Subs;

/// The farm's books, and its counters, which contracts see as the farm and the graph of its depends. The live attempts stand twice, in the slots and in
/// a book of their own, which keeps what they use and each host's own; the book of limits keeps how many of them run in each limit. Of a row that is put
/// in it is known only what its book asks: what every farm keeps is the law of the layers above.
#[derive(Drop)]
pub struct Books {
    pub(crate) shows: Shows,
    pub(crate) allocs: Allocs,
    pub(crate) attempts: Attempts,
    pub(crate) limits: Limits,
    pub(crate) hosts: Hosts,
    pub(crate) jobs: Jobs,
    pub(crate) depends: Depends,
    pub(crate) moment: u64,
    pub(crate) recorded: bool,
}

impl Model for Books {
    ghost use Rattle.farm_books.specs.Books as types;

    ghost Value = { types.FarmBooks };

    ghost use Rattle.farm_books.specs.Inside.{books_of, KeepsAttempts};

    ghost view = { books_of };

    ghost invariant = { KeepsAttempts };
}

impl Books {
    /// The books of no rows. They take their memory.
    pub fn make(alloc: Global) -> Result<Books, AllocError>
        ensures { IfOk result (λ books. books ≡ empty_books) }
    {
        Ok(Books {
            shows: Shows::make(alloc)?,
            allocs: Allocs::make(alloc)?,
            attempts: Attempts::make(alloc)?,
            limits: Limits::make(alloc)?,
            hosts: Hosts::make(alloc)?,
            jobs: Jobs::make(alloc)?,
            depends: Depends::make(alloc)?,
            moment: 0,
            recorded: false,
        })
    }

    /// The moment (seconds) that the farm is at.
    pub fn moment(&self) -> u64
        ensures { result ≡ self.now.farm.moment }
    {
        self.moment
    }

    /// Whether an entry has made the farm.
    pub fn is_recorded(&self) -> bool
        ensures { result ≡ self.now.farm.recorded }
    {
        self.recorded
    }

    /// The slots, each at its number, up to the last that was ever used.
    pub fn slots(&self) -> &[SlotRow]
        ensures value { result.now ≡ self.now.farm.slots }
        ensures count { length result.now ≤ SLOT_LIMIT }
    {
        self.jobs.slots()
    }

    /// The jobs, their layers and the slots.
    pub fn jobs(&self) -> &Jobs
        ensures { result.now ≡ lists_of self.now.farm }
    {
        &self.jobs
    }

    /// The subscriptions, and what is booked of each.
    pub fn subs(&self) -> &Subs
        ensures rows { result.now.subs ≡ self.now.farm.subs }
        ensures booked { (sub : ℕ) → total_at result.now.booked sub ≡ booked_in self.now.farm sub }
    {
        self.attempts.subs()
    }

    /// The limits, and how many frames run in each.
    pub fn limits(&self) -> &Limits
        ensures rows { result.now.limits ≡ self.now.farm.limits }
        ensures running { (limit : ℕ) → limit < length self.now.farm.limits → total_at result.now.running limit ≡ running_in self.now.farm limit }
    {
        &self.limits
    }

    /// The show of that number.
    pub fn show(&self, show: ShowNo) -> Option<&ShowRow>
        ensures { option_copied result ≡ slice_get self.now.farm.shows show }
    {
        self.shows.row(show)
    }

    /// The allocation of that number.
    pub fn allocation(&self, alloc: AllocNo) -> Option<&AllocRow>
        ensures { option_copied result ≡ slice_get self.now.farm.allocs alloc }
    {
        self.allocs.row(alloc)
    }

    /// The host of that number.
    pub fn host(&self, host: HostNo) -> Option<&HostRow>
        ensures { option_copied result ≡ slice_get self.now.farm.hosts host }
    {
        self.hosts.row(host)
    }

    /// The life of the host of that number.
    pub fn life(&self, host: HostNo) -> Option<HostLife>
        ensures { result ≡ option_map life_of (slice_get self.now.farm.hosts host) }
    {
        self.hosts.life(host)
    }

    /// The subscription of that number.
    pub fn sub(&self, sub: SubNo) -> Option<SubRow>
        ensures { result ≡ sub_at self.now.farm sub }
    {
        self.attempts.subs().row(sub)
    }

    /// The subscription of a show to an allocation.
    pub fn sub_of(&self, show: ShowNo, alloc: AllocNo) -> Option<SubRow>
        ensures value { result ≡ sub_at self.now.farm (sub_of show alloc) }
        ensures number { IfSome result (λ s. s.sub ≡ sub_of show alloc) }
    {
        let subs = self.attempts.subs();
        match SubNo::of(show, alloc) {
            None => None,
            Some(sub) => subs.row(sub),
        }
    }

    /// The job of that number.
    pub fn job(&self, job: JobNo) -> Option<&JobRow>
        ensures { option_copied result ≡ job_at self.now.farm job }
    {
        self.jobs.job(job)
    }

    /// The job with the least number above this one.
    pub fn next_job(&self, after: u32) -> Option<JobNo>
        ensures value { result ≡ job_after self.now.farm after }
        ensures least { IfSome result (IsNextKey job_key self.now.farm.jobs after) }
        ensures none { IfNone result (All (λ j. j.job ≤ after) self.now.farm.jobs) }
    {
        self.jobs.next(after)
    }

    /// The layer at that place (from 0) of a job.
    pub fn layer(&self, job: JobNo, place: u32) -> Option<&LayerRow>
        ensures { option_copied result ≡ layer_at self.now.farm job place }
    {
        self.jobs.layer(job, place)
    }

    /// What stands in a slot, none past the last that was ever used.
    pub fn slot(&self, slot: Slot) -> Option<SlotRow>
        ensures { result ≡ slice_get self.now.farm.slots slot }
    {
        self.jobs.row(slot)
    }

    /// The live attempt of a slot.
    pub fn live(&self, slot: Slot) -> Option<ProcRow>
        ensures { result ≡ live_at self.now.farm slot }
    {
        match self.slot(slot) {
            None => None,
            Some(row) => row.proc,
        }
    }
}
