//! Prepares the change that an entry makes, or says why the farm refuses it.

ghost use Rattle.std.specs.Prelude.{◌≡◌, ◌≤◌, false, None};
ghost use Rattle.farm_types.specs.Limits.{SubKeepsLimits};
ghost use Rattle.farm_types.specs.SpecLimits.{JobKeepsLimits};
ghost use Rattle.farm_types.specs.Formed.{IsFormed};
ghost use Rattle.farm_types.specs.Kept.{KeepsRows};
ghost use Rattle.farm_types.specs.Step.{HasCondition};
ghost use Rattle.farm_types.specs.declared.entry.Act.TheVariants as act;
ghost use Rattle.farm_changes.specs.declared.act_answer.ActAnswer.TheVariants as known;
ghost use Rattle.farm_changes.specs.declared.change.Reserved.TheVariants as taken;
ghost use Rattle.farm_books.specs.Books.{IsWhole};
ghost use Rattle.farm_changes.specs.Change.{Prepares, RunsPlanned};

use crate::act_answer::ActAnswer;
use crate::change::{Change, More, Reserved};
use crate::prepare_depend::{prepare_added, prepare_dropped};
use crate::prepare_host::{
    prepare_boot, prepare_heard, prepare_lock, prepare_opened, prepare_tick,
};
use crate::prepare_jobs::{prepare_kill_job, prepare_pause};
use crate::prepare_operators::{prepare_eat, prepare_kill_frame, prepare_retry};
use crate::prepare_slots::prepare_book;
use crate::refused::existing_alloc;
use alloc_tags::AllocRefusal;
use farm_books::Books;
use farm_draft::Rows;
use farm_places::{check_limits, limits_of};
use farm_types::{
    Act, Answer, Counted, Entry, FarmFault, JobSpec, MOST_ALLOCS, MOST_LIMITS, MOST_SHOWS, SubLine,
    SubNo, Text,
};
use limit_book::{LimitPlan, LimitRefusal};
use std::alloc::Global;

/// Prepares what the entry's act does, and changes nothing. The books are whole, the entry is within its forms and limits, and an entry to book is one
/// whose booking may be recorded. What follows of depends is known to the layer above.
pub fn prepare(alloc: Global, books: &Books, entry: &Entry) -> Result<Change, FarmFault>
    requires whole { IsWhole books.now }
    requires condition { HasCondition books.now.farm entry.now.act }
    requires formed { IsFormed entry.now }
    ensures { Prepares books.now.farm entry.now result }
{
    let moment = books.later_of(entry.moment);
    match &entry.act {
        Act::Opened => prepare_opened(alloc, books, moment),
        Act::Show { name } => prepare_show(alloc, books, moment, name),
        Act::Alloc { facility, tag } => prepare_alloc(alloc, books, moment, facility, tag),
        Act::Sub(line) => prepare_sub(alloc, books, moment, line),
        Act::Limit { name, most } => prepare_limit(alloc, books, moment, name, *most),
        Act::Boot(line) => prepare_boot(alloc, books, moment, line),
        Act::Heard(heard) => prepare_heard(alloc, books, moment, heard),
        Act::Submit(spec) => prepare_submit(alloc, books, moment, spec),
        Act::AddDepend(spec) => prepare_added(alloc, books, moment, spec),
        Act::DropDepend { depend } => prepare_dropped(alloc, books, moment, *depend),
        Act::Pause { job, paused } => prepare_pause(alloc, books, moment, job, *paused),
        Act::KillJob { job } => prepare_kill_job(alloc, books, moment, job),
        Act::KillFrame(place) => prepare_kill_frame(alloc, books, moment, place),
        Act::EatFrame(place) => prepare_eat(alloc, books, moment, place),
        Act::RetryFrame(place) => prepare_retry(alloc, books, moment, place),
        Act::Lock { host, lock } => prepare_lock(alloc, books, moment, host, *lock),
        Act::Tick => prepare_tick(alloc, books, moment),
        Act::Book { slot, host } => prepare_book(alloc, books, moment, *slot, *host),
    }
}

/// A change of those rows, at the moment, with the whole answer, which is of no report. Its memory isn't taken yet.
pub(crate) fn change_of(moment: u64, answer: Answer, rows: Rows, more: More) -> Change
    ensures { result
        ≡ record { moment = moment; answer = known.Whole answer; heard = None; rows = rows; more = more; reserved = false; memory = taken.None } }
{
    change_with(moment, ActAnswer::Whole(answer), rows, more)
}

/// The same with what is known of the answer.
pub(crate) fn change_with(moment: u64, answer: ActAnswer, rows: Rows, more: More) -> Change
    ensures { result ≡ record { moment = moment; answer = answer; heard = None; rows = rows; more = more; reserved = false; memory = taken.None } }
{
    Change {
        moment,
        answer,
        heard: None,
        rows,
        more,
        reserved: false,
        memory: Reserved::None,
    }
}

// Prepares that a show is added. Its name is new, then there are not too many.
fn prepare_show(alloc: Global, books: &Books, moment: u64, name: &Text) -> Result<Change, FarmFault>
    requires { books.now.farm.moment ≤ moment }
    ensures { Prepares books.now.farm (record { moment = moment; act = act.Show name.now }) result }
{
    if books.show_named(name.as_str()).is_some() {
        return Err(FarmFault::existing(alloc, name));
    }
    if books.count_shows() >= MOST_SHOWS as usize {
        return Err(FarmFault::full(u64::from(MOST_SHOWS), Counted::Shows));
    }
    let name = name.copy(alloc)?;
    Ok(change_of(moment, Answer::Show, Rows::none(alloc), More::Show { name }))
}

// Prepares that an allocation is added.
fn prepare_alloc(
    alloc: Global,
    books: &Books,
    moment: u64,
    facility: &Text,
    tag: &Text,
) -> Result<Change, FarmFault>
    requires { books.now.farm.moment ≤ moment }
    ensures { Prepares books.now.farm (record { moment = moment; act = act.Alloc facility.now tag.now }) result }
{
    match books.check_alloc(facility.as_str(), tag.as_str()) {
        Ok(_) => {
            let facility = facility.copy(alloc)?;
            let tag = tag.copy(alloc)?;
            Ok(change_of(
                moment,
                Answer::Alloc,
                Rows::none(alloc),
                More::Alloc { facility, tag },
            ))
        }
        Err(AllocRefusal::Exists) => Err(existing_alloc(alloc, facility.as_str(), tag.as_str())),
        Err(AllocRefusal::Full) => Err(FarmFault::full(u64::from(MOST_ALLOCS), Counted::Allocs)),
    }
}

// Prepares that a subscription of a show to an allocation is set.
fn prepare_sub(
    alloc: Global,
    books: &Books,
    moment: u64,
    line: &SubLine,
) -> Result<Change, FarmFault>
    requires kept { KeepsRows books.now.farm }
    requires ahead { books.now.farm.moment ≤ moment }
    requires limits { SubKeepsLimits line.now }
    ensures { Prepares books.now.farm (record { moment = moment; act = act.Sub line.now }) result }
{
    let Some(show) = books.show_named(line.show.as_str()) else {
        return Err(FarmFault::unknown(alloc, &line.show));
    };
    let Some(allocation) = books.alloc_named(line.alloc.as_str()) else {
        return Err(FarmFault::unknown(alloc, &line.alloc));
    };
    let Some(sub) = SubNo::of(show, allocation) else {
        unreachable!()
    };
    let answer = Answer::Sub {
        booked: books.booked(sub),
        burst: line.burst,
        size: line.size,
    };
    let more = More::Sub {
        sub,
        size: line.size,
        burst: line.burst,
    };
    Ok(change_of(moment, answer, Rows::none(alloc), more))
}

// Prepares that a limit lets so many frames run.
fn prepare_limit(
    alloc: Global,
    books: &Books,
    moment: u64,
    name: &Text,
    most: u32,
) -> Result<Change, FarmFault>
    requires kept { KeepsRows books.now.farm }
    requires ahead { books.now.farm.moment ≤ moment }
    ensures { Prepares books.now.farm (record { moment = moment; act = act.Limit name.now most }) result }
{
    let plan = match books.check_limit(name.as_str()) {
        Ok(plan) => plan,
        Err(LimitRefusal::Full) => {
            return Err(FarmFault::full(u64::from(MOST_LIMITS), Counted::Limits));
        }
    };
    let answer = Answer::Limit {
        most,
        running: running_in(books, &plan),
    };
    let name = name.copy(alloc)?;
    let more = More::Limit { plan, name, most };
    Ok(change_of(moment, answer, Rows::none(alloc), more))
}

// How many frames run in the limit of the plan, none in a new one.
fn running_in(books: &Books, plan: &LimitPlan) -> u32
    ensures { RunsPlanned books.now.farm plan.now result }
{
    match plan {
        LimitPlan::New { .. } => 0,
        LimitPlan::Known { limit } => books.running(*limit),
    }
}

// Prepares that a job is placed, of the show, the facility and the limits that its spec names.
fn prepare_submit(
    alloc: Global,
    books: &Books,
    moment: u64,
    spec: &JobSpec,
) -> Result<Change, FarmFault>
    requires ahead { books.now.farm.moment ≤ moment }
    requires limits { JobKeepsLimits spec.now }
    ensures { Prepares books.now.farm (record { moment = moment; act = act.Submit spec.now }) result }
{
    let Some(show) = books.show_named(spec.show.as_str()) else {
        return Err(FarmFault::unknown(alloc, &spec.show));
    };
    if !books.has_facility(&spec.facility) {
        return Err(FarmFault::unknown(alloc, &spec.facility));
    }
    check_limits(alloc, books, &spec.layers)?;
    let limits = limits_of(alloc, books, &spec.layers)?;
    let placing = books.check_job(alloc, spec, show, limits)?;
    let spec = spec.copy(alloc)?;
    let answer = Answer::Submitted {
        frames: placing.frames,
    };
    Ok(change_of(
        moment,
        answer,
        Rows::none(alloc),
        More::Job { placing, spec },
    ))
}
