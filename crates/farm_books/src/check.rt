//! What the books say before a row is put in: whether it may be, and which hosts are silent.

ghost use Rattle.std.specs.Prelude.{◌≡◌, ◌≤◌, ◌<◌, false, length, slice_get};
ghost use Rattle.alloc_tags.specs.Book.{check_of};
ghost use Rattle.farm_types.specs.Farm.{alloc_name};
ghost use Rattle.farm_types.specs.Hosts.{count_unheard};
ghost use Rattle.farm_types.specs.SpecLimits.{JobKeepsLimits};
ghost use Rattle.farm_types.specs.Step.{is_silent, lists_of};
ghost use Rattle.farm_types.specs.declared.limits.TheConstants.{MOST_HOSTS, MOST_SHOWS};
ghost use Rattle.host_book.specs.Book.{heard_check, plan_of};
ghost use Rattle.job_book.specs.Book.{Checks};
ghost use Rattle.limit_book.specs.Book.{check_of as limit_check};

use crate::books::Books;
use alloc_tags::AllocRefusal;
use farm_types::{AllocNo, BootLine, FarmFault, HostNo, Items, JobSpec, LimitNo, ShowNo};
use host_book::{BootPlan, HeardRefusal, HostRefusal};
use job_book::Placing;
use limit_book::{LimitPlan, LimitRefusal};
use std::alloc::Global;

impl Books {
    /// How many shows there are.
    pub fn count_shows(&self) -> usize
        ensures value { result ≡ length self.now.farm.shows }
        ensures within { result ≤ MOST_SHOWS }
    {
        self.shows.count()
    }

    /// How many hosts there are.
    pub fn count_hosts(&self) -> usize
        ensures value { result ≡ length self.now.farm.hosts }
        ensures within { result ≤ MOST_HOSTS }
    {
        self.hosts.count()
    }

    /// Whether an allocation of that facility and tag may be added: its number, or why not.
    pub fn check_alloc(&self, facility: &str, tag: &str) -> Result<AllocNo, AllocRefusal>
        ensures { result ≡ check_of self.now.farm.allocs (alloc_name facility.now tag.now) }
    {
        self.allocs.check(facility, tag)
    }

    /// Where a limit of that name is set, or why it can't be.
    pub fn check_limit(&self, name: &str) -> Result<LimitPlan, LimitRefusal>
        ensures { result ≡ limit_check self.now.farm.limits name.now }
    {
        self.limits.check(name)
    }

    /// What a boot comes to, or why it isn't taken.
    pub fn check_boot(&self, line: &BootLine, alloc: AllocNo) -> Result<BootPlan, HostRefusal>
        ensures { result ≡ plan_of self.now.farm.hosts line.now alloc }
    {
        self.hosts.check_boot(line, alloc)
    }

    /// Whether a report of that boot and sequence number may be taken.
    pub fn check_heard(&self, host: HostNo, boot: u32, seq: u64) -> Result<(), HeardRefusal>
        requires { host < length self.now.farm.hosts }
        ensures { result ≡ heard_check boot seq (slice_get self.now.farm.hosts host) }
    {
        self.hosts.check_heard(host, boot, seq)
    }

    /// Where a job would be placed, its layers with these limits, or why it can't be.
    pub fn check_job(
        &self,
        alloc: Global,
        spec: &JobSpec,
        show: ShowNo,
        limits: Items<Option<LimitNo>>,
    ) -> Result<Placing, FarmFault>
        requires { JobKeepsLimits spec.now }
        ensures { Checks (lists_of self.now.farm) show limits spec.now result }
    {
        self.jobs.check(alloc, spec, show, limits)
    }

    /// How many hosts are silent at the moment (seconds). Where the book of hosts knows that none is, none is looked at.
    pub fn count_silent(&self, moment: u64) -> u32
        ensures { result ≡ count_unheard moment self.now.farm.hosts }
    {
        self.hosts.count_expired(moment)
    }

    /// Whether a host may be silent at the moment: `false` at once where the book of hosts knows that none is. After `true` there may still be none.
    pub fn may_be_silent(&self, moment: u64) -> bool
        ensures { result ≡ false → count_unheard moment self.now.farm.hosts ≡ 0 }
    {
        self.hosts.may_expire(moment)
    }

    /// Whether the host is silent at the moment.
    pub fn is_silent(&self, host: HostNo, moment: u64) -> bool
        ensures { result ≡ is_silent self.now.farm moment host }
    {
        self.hosts.expired(host, moment)
    }
}
