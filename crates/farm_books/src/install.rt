//! One call for each kind of row that puts it in: shows, allocations, subscriptions, limits, hosts, slots; and one for a job's pause. Each keeps what is kept
//! beside the rows, and takes no memory.

ghost use Rattle.std.specs.Prelude.{◌≡◌, ◌<◌, ◌≤◌, ◌++◌, ◌∷◌, [], is_some, length, map, slice_set, true, Ok};
ghost use Rattle.std.specs.List.{list_all};
ghost use Rattle.alloc_tags.specs.Book.{check_of};
ghost use Rattle.farm_types.specs.Farm.{alloc_name, changed_at};
ghost use Rattle.farm_types.specs.Hosts.{booted};
ghost use Rattle.farm_types.specs.Kept.{has_its_limit};
ghost use Rattle.farm_types.specs.Operators.{paused_row};
ghost use Rattle.farm_types.specs.Run.{live_at};
ghost use Rattle.farm_types.specs.Step.{at_moment};
ghost use Rattle.farm_types.specs.Subs.{with_sub};
ghost use Rattle.farm_types.specs.declared.limits.TheConstants.{MOST_SHOWS, SLOT_LIMIT, SUB_NUMBERS};
ghost use Rattle.host_book.specs.Book.{alloc_of, plan_of};
ghost use Rattle.host_book.specs.Life.{with_life};
ghost use Rattle.farm_books.specs.Books.{with_farm};
ghost use Rattle.limit_book.specs.Book.{check_of as limit_check};
ghost use Rattle.farm_books.specs.Install.{CanInstall};
ghost use Rattle.farm_books.specs.Limits.{with_limit};

use crate::books::Books;
use crate::limits::{limit_of, recount};
use alloc_tags::Spare;
use farm_types::{Cores, HostNo, JobNo, Slot, SlotRow, SubNo, Text};
use host_book::{BootPlan, HostLife, HostSpare};
use limit_book::{LimitPlan, Spare as LimitSpare};

impl Books {
    /// The farm comes to the moment (seconds), and is recorded as one that an entry made.
    pub fn advance_to(&mut self, moment: u64)
        ensures { self.new ≡ with_farm self.old (at_moment self.old.farm moment) }
    {
        self.moment = moment;
        self.recorded = true;
    }

    /// A show is added.
    pub fn install_show(&mut self, name: Text)
        requires { length self.old.farm.shows < MOST_SHOWS }
        ensures { self.new ≡ with_farm self.old (record self.old.farm { shows = self.old.farm.shows ++ record { name = name } ∷ [] }) }
    {
        self.shows.add(name);
    }

    /// An allocation is added, in the memory that was taken for it.
    pub fn install_alloc(&mut self, spare: Spare)
        requires { check_of self.old.farm.allocs (alloc_name spare.facility spare.tag) ≡ Ok (length self.old.farm.allocs) }
        ensures { self.new ≡ with_farm self.old (record self.old.farm { allocs = self.old.farm.allocs ++ spare ∷ [] }) }
    {
        self.allocs.add(spare);
    }

    /// A subscription gets that size and burst, and is added where it isn't there.
    pub fn install_sub(&mut self, sub: SubNo, size: Cores, burst: Cores)
        requires { sub < SUB_NUMBERS }
        ensures { self.new ≡ with_farm self.old
            (record self.old.farm { subs = with_sub (record { sub = sub; size = size; burst = burst }) self.old.farm.subs }) }
    {
        self.attempts.set_sub(sub, size, burst);
    }

    /// So many frames run at most in the limit of the plan, which `check_limit` gave of that name, from now on. What runs stays. No layer has a limit that
    /// isn't there.
    pub fn install_limit(&mut self, spare: LimitSpare, plan: LimitPlan, most: u32)
        requires plan { limit_check self.old.farm.limits spare ≡ Ok plan }
        requires layers { list_all (has_its_limit (length self.old.farm.limits)) self.old.farm.layers ≡ true }
        ensures { self.new ≡ with_farm self.old (record self.old.farm { limits = with_limit self.old.farm.limits spare plan most }) }
    {
        // There is a count of each limit.
        let _count = self.limits.count();
        self.limits.set(spare, plan, most);
    }

    /// A host has that life.
    pub fn install_life(&mut self, host: HostNo, life: HostLife)
        requires { host < length self.old.farm.hosts }
        ensures { self.new ≡ with_farm self.old (record self.old.farm { hosts = changed_at self.old.farm.hosts host (with_life life) }) }
    {
        self.hosts.set_life(host, life);
    }

    /// A host boots as planned, in the memory that was taken for it.
    pub fn install_boot(&mut self, spare: HostSpare, plan: BootPlan, moment: u64)
        requires { plan_of self.old.farm.hosts spare (alloc_of plan) ≡ Ok plan }
        ensures { self.new ≡ with_farm self.old (record self.old.farm { hosts = booted self.old.farm.hosts spare (alloc_of plan) moment }) }
    {
        self.hosts.apply_boot(spare, plan, moment);
    }

    /// A slot holds that row, whose frame is the one that stands there. Where the row has no live attempt, the slot's attempt ends; where it has one, that
    /// begins. The limit of the frame's layer gets its place back, or gives one.
    pub fn install_slot(&mut self, slot: Slot, row: &SlotRow)
        requires { CanInstall self.old.farm.subs self.old.farm.slots slot row.now }
        ensures { self.new ≡ with_farm self.old (record self.old.farm { slots = slice_set self.old.farm.slots slot row.now }) }
    {
        let ran = self.has_attempt(slot);
        let limit = limit_of(&self.jobs, row);
        recount(&mut self.limits, limit, ran, row.proc.is_some());
        self.attempts.end(slot);
        if let Some(proc) = row.proc {
            self.attempts.begin(slot, proc);
        }
        self.jobs.set_row(slot, row);
    }

    // Whether the slot has a live attempt.
    fn has_attempt(&self, slot: Slot) -> bool
        ensures value { result ≡ is_some (live_at self.now.farm slot) }
        ensures count { length self.now.farm.slots ≤ SLOT_LIMIT }
    {
        match self.slots().get(slot.0 as usize) {
            None => false,
            Some(row) => row.proc.is_some(),
        }
    }

    /// A job is paused, or resumed. Nothing changes where it isn't there.
    pub fn install_paused(&mut self, job: JobNo, paused: bool)
        ensures { self.new ≡ with_farm self.old (record self.old.farm { jobs = map (paused_row job paused) self.old.farm.jobs }) }
    {
        self.jobs.set_paused(job, paused);
    }

    /// Looks again how long ago the hosts were heard, where the book of hosts can't tell that none is silent.
    pub fn watch(&mut self, moment: u64)
        ensures { self.new ≡ self.old }
    {
        self.hosts.watch(moment);
    }
}
