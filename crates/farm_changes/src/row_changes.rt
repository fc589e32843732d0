//! The rows of the store that a change makes other ones.

ghost use Rattle.std.specs.Prelude.{◌≡◌, ◌<◌, ◌++◌, ◌∷◌, [], map, length, slice_get, All, IfOk, OnOk, Ok};
ghost use Rattle.alloc_tags.specs.Book.{check_of};
ghost use Rattle.farm_types.specs.Farm.{alloc_name, job_at};
ghost use Rattle.farm_types.specs.Step.{limit_row, lists_of};
ghost use Rattle.farm_rows.specs.Changes.{MakesBookRows};
ghost use Rattle.farm_rows.specs.declared.farm_row.FarmRow.TheVariants as row;
ghost use Rattle.farm_rows.specs.declared.row_change.RowChange.TheVariants as change;
ghost use Rattle.host_book.specs.Life.{with_life};
ghost use Rattle.limit_book.specs.Book.{number_in};
ghost use Rattle.farm_changes.specs.Change.{IsReady, after_change};
ghost use Rattle.farm_changes.specs.RowChanges.{IsLeft, Leaves, life_put, lives_put, more_put, paused_put, slot_put};

use crate::change::{Change, More};
use crate::row_boot::put_boot;
use crate::row_job::put_job;
use farm_books::Books;
use farm_draft::SlotChange;
use farm_rows::{FarmRow, RowChange};
use farm_types::{
    AllocRow, Cores, HostNo, HostRow, JobNo, JobSpec, LimitNo, LimitRow, ShowNo, ShowRow, SubNo,
    SubRow, Text,
};
use host_book::HostLife;
use limit_book::LimitPlan;
use std::alloc::{AllocError, Global};

impl Change {
    /// The rows of the store that the change makes other ones in these books, but for the farm's own, each as it will be, in the order in which they
    /// change. A row that stays as it is may be among them, and one that changes more than once. Depends and marks stay as they are.
    pub fn row_changes(&self, alloc: Global, books: &Books) -> Result<Vec<RowChange>, AllocError>
        requires { IsReady books.now.farm self.now }
        ensures { IfOk result (λ changes. MakesBookRows books.now.farm (after_change books.now.farm self.now) changes.items) }
    {
        let mut changes = Vec::new(alloc);
        put_lives(alloc, books, self.rows.hosts.as_slice(), &mut changes)?;
        put_slots(self.rows.slots.as_slice(), &mut changes)?;
        let left = leaving(books, &self.more);
        put_more(alloc, books, self, left, &mut changes)?;
        Ok(changes)
    }
}

// Hosts get other lives.
fn put_lives(
    alloc: Global,
    books: &Books,
    lives: &[(u32, HostLife)],
    into: &mut Vec<RowChange>,
) -> Result<(), AllocError>
    requires { All (λ e. e.0 < length books.now.farm.hosts) lives.now }
    ensures { OnOk result (into.new.items ≡ into.old.items ++ lives_put books.now.farm.hosts lives.now) }
{
    for entry in lives {
        put_life(alloc, books, entry.0, &entry.1, into)?;
    }
    Ok(())
}

// A host gets another life.
fn put_life(
    alloc: Global,
    books: &Books,
    host: u32,
    life: &HostLife,
    into: &mut Vec<RowChange>,
) -> Result<(), AllocError>
    requires { host < length books.now.farm.hosts }
    ensures { OnOk result (into.new.items ≡ into.old.items ++ life_put (host, life.now) (slice_get books.now.farm.hosts host)) }
{
    // There are at most 4,096 hosts, so that the number of one that is there is below that.
    let _hosts = books.count_hosts();
    let host = HostNo(host as u16);
    let Some(row) = books.host(host) else {
        return Ok(());
    };
    let row = with_life(row.copy(alloc)?, life);
    into.push(RowChange::Put(FarmRow::Host { host, row }))?;
    Ok(())
}

/// The host's row, with another life.
pub(crate) fn with_life(row: HostRow, life: &HostLife) -> HostRow
    ensures { result ≡ with_life life.now row }
{
    let mut row = row;
    row.state = life.state;
    row.heard = life.heard;
    row.seq = life.seq;
    row.lock = life.lock;
    row
}

// Slots get other rows.
fn put_slots(slots: &[SlotChange], into: &mut Vec<RowChange>) -> Result<(), AllocError>
    ensures { OnOk result (into.new.items ≡ into.old.items ++ map slot_put slots.now) }
{
    for change in slots {
        into.push(RowChange::of_slot(change.slot, &change.row))?;
    }
    Ok(())
}

// The finished job that leaves where the change places a job of its name.
fn leaving(books: &Books, more: &More) -> Option<JobNo>
    ensures { IsLeft books.now.farm result more.now }
{
    match more {
        More::Job { spec, .. } => left_by(books, spec),
        _ => None,
    }
}

// The finished job that leaves where a job of its name is placed.
fn left_by(books: &Books, spec: &JobSpec) -> Option<JobNo>
    ensures { Leaves (lists_of books.now.farm) result spec.now }
{
    let jobs = books.jobs();
    let _number = jobs.next_number();
    jobs.finished_named(spec.name.as_str())
}

// The row that owns texts, and what comes with it.
fn put_more(
    alloc: Global,
    books: &Books,
    change: &Change,
    left: Option<JobNo>,
    into: &mut Vec<RowChange>,
) -> Result<(), AllocError>
    requires { IsReady books.now.farm change.now }
    ensures { OnOk result (into.new.items ≡ into.old.items ++ more_put books.now.farm change.now.rows.hosts.items change.now.moment left change.now.more) }
{
    let moment = change.moment;
    match &change.more {
        More::Nothing => Ok(()),
        More::Show { name } => put_show(alloc, books, name, into),
        More::Alloc { facility, tag } => put_alloc(alloc, books, facility, tag, into),
        More::Sub { sub, size, burst } => put_sub(*sub, *size, *burst, into),
        More::Limit { plan, name, most } => put_limit(alloc, plan, name, *most, into),
        More::Boot { plan, line } => put_boot(
            alloc,
            books,
            change.rows.hosts.as_slice(),
            plan,
            line,
            moment,
            into,
        ),
        More::Paused { job, paused } => put_paused(alloc, books, *job, *paused, into),
        More::Job { placing, spec } => put_job(alloc, books, left, placing, spec, into),
    }
}

// A show is added.
fn put_show(
    alloc: Global,
    books: &Books,
    name: &Text,
    into: &mut Vec<RowChange>,
) -> Result<(), AllocError>
    ensures { OnOk result (into.new.items ≡ into.old.items ++ change.Put (row.Show (length books.now.farm.shows) (record { name = name.now })) ∷ []) }
{
    let show = ShowNo(books.count_shows() as u16);
    let row = ShowRow {
        name: name.copy(alloc)?,
    };
    into.push(RowChange::Put(FarmRow::Show { show, row }))?;
    Ok(())
}

// An allocation is added.
fn put_alloc(
    alloc: Global,
    books: &Books,
    facility: &Text,
    tag: &Text,
    into: &mut Vec<RowChange>,
) -> Result<(), AllocError>
    requires { check_of books.now.farm.allocs (alloc_name facility.now tag.now) ≡ Ok (length books.now.farm.allocs) }
    ensures { OnOk result (into.new.items ≡ into.old.items ++ change.Put (row.Alloc (length books.now.farm.allocs)
        (record { facility = facility.now; tag = tag.now })) ∷ []) }
{
    let Ok(number) = books.check_alloc(facility.as_str(), tag.as_str()) else {
        unreachable!()
    };
    let row = AllocRow {
        facility: facility.copy(alloc)?,
        tag: tag.copy(alloc)?,
    };
    into.push(RowChange::Put(FarmRow::Alloc { alloc: number, row }))?;
    Ok(())
}

// A subscription is added or set.
fn put_sub(
    sub: SubNo,
    size: Cores,
    burst: Cores,
    into: &mut Vec<RowChange>,
) -> Result<(), AllocError>
    ensures { OnOk result (into.new.items ≡ into.old.items ++ change.Put (row.Sub (record { sub = sub; size = size; burst = burst })) ∷ []) }
{
    into.push(RowChange::Put(FarmRow::Sub(SubRow { sub, size, burst })))?;
    Ok(())
}

// A limit is added or set.
fn put_limit(
    alloc: Global,
    plan: &LimitPlan,
    name: &Text,
    most: u32,
    into: &mut Vec<RowChange>,
) -> Result<(), AllocError>
    ensures { OnOk result (into.new.items ≡ into.old.items ++ change.Put (row.Limit (number_in plan.now) (limit_row name.now most)) ∷ []) }
{
    let limit = number_in(plan);
    let row = LimitRow {
        name: name.copy(alloc)?,
        most,
    };
    into.push(RowChange::Put(FarmRow::Limit { limit, row }))?;
    Ok(())
}

// The number at which the limit of the plan is set.
fn number_in(plan: &LimitPlan) -> LimitNo
    ensures { result ≡ number_in plan.now }
{
    match plan {
        LimitPlan::New { limit } => *limit,
        LimitPlan::Known { limit } => *limit,
    }
}

// A job is paused, or resumed.
fn put_paused(
    alloc: Global,
    books: &Books,
    job: JobNo,
    paused: bool,
    into: &mut Vec<RowChange>,
) -> Result<(), AllocError>
    ensures { OnOk result (into.new.items ≡ into.old.items ++ paused_put paused (job_at books.now.farm job)) }
{
    let Some(row) = books.job(job) else {
        return Ok(());
    };
    let mut row = row.copy(alloc)?;
    row.paused = paused;
    into.push(RowChange::Put(FarmRow::Job(row)))?;
    Ok(())
}
