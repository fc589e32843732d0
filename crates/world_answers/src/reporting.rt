//! A report on a copy of the farm.

ghost use Rattle.std.specs.Prelude.{◌≡◌, ◌+◌, IfOk, None, Ok, Some, take};
ghost use Rattle.farm_types.specs.Formed.{IsFormed};
ghost use Rattle.farm_types.specs.Run.{IsLegal, run_of};
ghost use Rattle.farm_types.specs.Step.{refusal_of};
ghost use Rattle.farm_types.specs.declared.refusal.Refusal.{Refusal};
ghost use Rattle.farm_changes.specs.Change.{HasHeard};
ghost use Rattle.farm_lines.specs.Asked.{heard_entry};
ghost use Rattle.farm_lines.specs.Request.{request_of};
ghost use Rattle.farm_lines.specs.declared.asked.Asked.TheVariants as asked_variants;
ghost use Rattle.farm_lines.specs.declared.report.Report.{Report};
ghost use Rattle.farm_lines.specs.declared.request.Request.TheVariants as request;
ghost use Rattle.line_answers.specs.LineAnswers.{reported};
ghost use Rattle.world_law.specs.Ends.{ends_at};
ghost use Rattle.world_answers.specs.Leaving.{LeavesReport};
ghost use Rattle.world_answers.specs.Reporting.{Counts, HearsFirst, IsOfHost, IsPlan, IsPlanIf, IsReportEntry, Plans, PlansFrom};
ghost use Rattle.world_answers.specs.Trials.{Tries};
ghost use Rattle.world_answers.specs.Walking.{IsFirst};

use crate::ends::ends_of;
use crate::firsts::{commits_before, ends_if, first_entries, has_entries, run_first};
use crate::leaving::{Left, leave_report};
use crate::trial::{Further, Trial, TrialFault};
use crate::trying::reply_alone;
use crate::walking::{First, begin, book_round, walk_from};
use depend_law::legal_runs_keep_farms;
use farm_lines::{Asked, Report};
use farm_types::{Act, DoneItem, Entry, HostNo, Items};
use json::Scratch;
use line_answers::ask;
use line_answers::farm_core::Farm;
use std::alloc::{AllocError, Global};
use store_law::farms_differ_in_their_stores;

/// All entries that a report makes where the store refuses nothing, whether each of them changes a row, and its completions that change the farm.
#[derive(Drop)]
pub(crate) struct Plan {
    pub entries: Items<Entry>,
    pub stored: Items<bool>,
    pub ends: Items<DoneItem>,
}

/// A report's own entry: the farm after it, the host that it is of, and its completions that change the farm.
#[derive(Drop)]
pub(crate) struct HeardFirst {
    pub first: First,
    pub host: HostNo,
    pub ends: Items<DoneItem>,
}

/// What is left where the store refuses a commit, and the farm that this would have made.
#[derive(Drop)]
pub(crate) struct Cut {
    pub left: Left,
    pub made: Farm,
}

/// A report on a copy of the farm.
pub(crate) fn try_report(
    alloc: Global,
    farm: &Farm,
    line: &[u8],
    report: Report,
    moment: u64,
    refused: Option<u32>,
) -> Result<Trial, TrialFault>
    requires asks { request_of line.now ≡ Ok (request.Report report) }
    requires formed { IsFormed (heard_entry report moment) }
    ensures { Tries farm.now (reported farm.now report moment) refused result }
{
    let entry = heard_again(alloc, line, moment)?;
    match plan_of(alloc, farm, entry, moment)? {
        None => refused_report(alloc, farm, report, moment, refused),
        Some(plan) => taken_report(alloc, farm, report, plan, moment, refused),
    }
}

// The entry of the report that the line is, which is read once more.
fn heard_again(alloc: Global, line: &[u8], moment: u64) -> Result<Entry, AllocError>
    requires { (report : Report) × (request_of line.now ≡ Ok (request.Report report)) }
    ensures { IfOk result (λ entry. (report : Report) → request_of line.now ≡ Ok (request.Report report) → entry ≡ heard_entry report moment) }
{
    let mut scratch = Scratch::new(alloc);
    match ask(alloc, line, &mut scratch) {
        Ok(asked) => heard_in(asked, moment),
        Err(_) => Err(AllocError),
    }
}

// The entry of a report that is asked.
fn heard_in(asked: Asked, moment: u64) -> Result<Entry, AllocError>
    requires { (report : Report) × (asked ≡ asked_variants.Report report) }
    ensures { IfOk result (λ entry. (report : Report) → asked ≡ asked_variants.Report report → entry ≡ heard_entry report moment) }
{
    match asked {
        Asked::Report(report) => Ok(Entry {
            moment,
            act: Act::Heard(report.heard),
        }),
        _ => unreachable!(),
    }
}

// All entries of a report, where the farm takes it.
fn plan_of(
    alloc: Global,
    farm: &Farm,
    entry: Entry,
    moment: u64,
) -> Result<Option<Plan>, AllocError>
    requires formed { IsFormed entry }
    requires heard { (report : Report) × (entry ≡ heard_entry report moment) }
    ensures { IfOk result (λ plan. (report : Report) → entry ≡ heard_entry report moment → Plans farm.now report moment plan) }
{
    let heard = heard_first(alloc, farm, &entry);
    plan_if(alloc, heard, entry, moment)
}

// All entries of a report, where its own was taken.
fn plan_if(
    alloc: Global,
    heard: Result<Option<HeardFirst>, AllocError>,
    entry: Entry,
    moment: u64,
) -> Result<Option<Plan>, AllocError>
    ensures { IfOk result (IsPlanIf heard entry moment) }
{
    match heard {
        Ok(Some(heard)) => Ok(Some(plan_from(alloc, heard, entry, moment)?)),
        Ok(None) => {
            drop(entry);
            Ok(None)
        }
        Err(_) => {
            drop(entry);
            Err(AllocError)
        }
    }
}

// All entries of a report, from its own on.
fn plan_from(
    alloc: Global,
    heard: HeardFirst,
    entry: Entry,
    moment: u64,
) -> Result<Plan, AllocError>
    ensures { IfOk result (PlansFrom heard entry moment) }
{
    let HeardFirst { first, host, ends } = heard;
    let mut walk = walk_from(alloc, first, entry)?;
    book_round(alloc, &mut walk, host, moment)?;
    Ok(Plan {
        entries: walk.entries,
        stored: walk.stored,
        ends,
    })
}

// A report's own entry, where the farm takes it.
fn heard_first(alloc: Global, farm: &Farm, entry: &Entry) -> Result<Option<HeardFirst>, AllocError>
    requires formed { IsFormed entry.now }
    requires heard { IsReportEntry entry.now }
    ensures { IfOk result (HearsFirst farm.now entry.now) }
{
    match begin(alloc, farm, entry)? {
        None => Ok(None),
        Some(first) => Ok(Some(with_ends(alloc, farm, entry, first)?)),
    }
}

// With the completions that change the farm.
fn with_ends(
    alloc: Global,
    farm: &Farm,
    entry: &Entry,
    first: First,
) -> Result<HeardFirst, AllocError>
    requires heard { IsReportEntry entry.now }
    requires first { IsFirst farm.now entry.now first }
    ensures { IfOk result (λ heard. HearsFirst farm.now entry.now (Some heard)) }
{
    match host_and_ends(alloc, farm, entry, first.heard) {
        Ok((host, ends)) => Ok(HeardFirst { first, host, ends }),
        Err(_) => {
            drop(first);
            Err(AllocError)
        }
    }
}

// The host of a report's entry, and the completions that change the farm.
fn host_and_ends(
    alloc: Global,
    farm: &Farm,
    entry: &Entry,
    host: Option<HostNo>,
) -> Result<(HostNo, Items<DoneItem>), AllocError>
    requires heard { IsReportEntry entry.now }
    requires host { HasHeard farm.now entry.now.act host }
    ensures { IfOk result (λ found. IsOfHost farm.now entry.now.act found.0 × (found.1 ≡ ends_at farm.now entry.now)) }
{
    match (host, &entry.act) {
        (Some(host), Act::Heard(heard)) => {
            let ends = ends_of(alloc, farm, heard, host, entry.moment)?;
            Ok((host, ends))
        }
        _ => unreachable!(),
    }
}

// The farm refuses the report.
fn refused_report(
    alloc: Global,
    farm: &Farm,
    report: Report,
    moment: u64,
    refused: Option<u32>,
) -> Result<Trial, TrialFault>
    requires formed { IsFormed (heard_entry report moment) }
    requires refuses { (why : Refusal) × (refusal_of farm.now (heard_entry report moment) ≡ Some why) }
    ensures { Tries farm.now (reported farm.now report moment) refused result }
{
    if refused.is_some() {
        return Err(TrialFault::NoSuch);
    }
    let left = leave_report(alloc, farm, report, moment, None)?;
    Ok(reply_alone(alloc, left.farm, left.reply))
}

// The farm takes the report.
fn taken_report(
    alloc: Global,
    farm: &Farm,
    report: Report,
    plan: Plan,
    moment: u64,
    refused: Option<u32>,
) -> Result<Trial, TrialFault>
    requires formed { IsFormed (heard_entry report moment) }
    requires plan { IsPlan farm.now report moment plan }
    ensures { Tries farm.now (reported farm.now report moment) refused result }
{
    match refused {
        None => recorded_report(alloc, farm, report, plan, moment),
        Some(number) => cut_report(alloc, farm, report, plan, moment, number),
    }
}

// All its entries are recorded.
fn recorded_report(
    alloc: Global,
    farm: &Farm,
    report: Report,
    plan: Plan,
    moment: u64,
) -> Result<Trial, TrialFault>
    requires formed { IsFormed (heard_entry report moment) }
    requires plan { IsPlan farm.now report moment plan }
    ensures { Tries farm.now (reported farm.now report moment) None result }
{
    farm.kept();
    legal_runs_keep_farms();
    farms_differ_in_their_stores();
    let left = leave_report(alloc, farm, report, moment, None)?;
    Ok(Trial {
        farm: left.farm,
        entries: plan.entries,
        ends: plan.ends,
        stored: true,
        reply: left.reply,
        further: None,
    })
}

// The store refuses the commit of that number, if there is one.
fn cut_report(
    alloc: Global,
    farm: &Farm,
    report: Report,
    plan: Plan,
    moment: u64,
    number: u32,
) -> Result<Trial, TrialFault>
    requires formed { IsFormed (heard_entry report moment) }
    requires plan { IsPlan farm.now report moment plan }
    ensures { Tries farm.now (reported farm.now report moment) (Some number) result }
{
    farm.kept();
    legal_runs_keep_farms();
    farms_differ_in_their_stores();
    let Some(due) = commits_before(plan.stored.as_slice(), number) else {
        return Err(TrialFault::NoSuch);
    };
    cut_after(alloc, farm, report, plan, moment, number, due)
}

// The store refuses the commit of that number, which so many come before.
fn cut_after(
    alloc: Global,
    farm: &Farm,
    report: Report,
    plan: Plan,
    moment: u64,
    number: u32,
    due: u32,
) -> Result<Trial, TrialFault>
    requires formed { IsFormed (heard_entry report moment) }
    requires plan { IsPlan farm.now report moment plan }
    requires counts { Counts plan.stored number (Some due) }
    ensures { Tries farm.now (reported farm.now report moment) (Some number) result }
{
    farm.kept();
    legal_runs_keep_farms();
    farms_differ_in_their_stores();
    let early = ends_if(alloc, number, &plan.ends)?;
    let cut = cut_at(
        alloc,
        farm,
        report,
        moment,
        due,
        plan.entries.as_slice(),
        number,
    )?;
    Ok(Trial {
        farm: cut.left.farm,
        entries: first_entries(plan.entries, number),
        ends: early,
        stored: has_entries(number),
        reply: cut.left.reply,
        further: Some(Further {
            farm: cut.made,
            ends: plan.ends,
        }),
    })
}

// What is left where the store refuses the commit after so many, and the farm after the entry of that number.
fn cut_at(
    alloc: Global,
    farm: &Farm,
    report: Report,
    moment: u64,
    due: u32,
    entries: &[Entry],
    number: u32,
) -> Result<Cut, AllocError>
    requires formed { IsFormed (heard_entry report moment) }
    requires legal { IsLegal farm.now entries.now }
    ensures { IfOk result (λ cut. LeavesReport farm.now report moment (Some due) cut.left × (cut.made ≡ run_of farm.now (take (number + 1) entries.now))) }
{
    let left = leave_report(alloc, farm, report, moment, Some(due))?;
    match run_first(alloc, farm, entries, number) {
        Ok(made) => Ok(Cut { left, made }),
        Err(_) => {
            drop(left);
            Err(AllocError)
        }
    }
}
