//! Answers on a table of words and by a recorder of their own, whose store refuses one commit.

ghost use Rattle.std.specs.Prelude.{◌≡◌, [], IfOk};
ghost use Rattle.farm_types.specs.Formed.{IsFormed};
ghost use Rattle.farm_types.specs.Step.{refusal_of};
ghost use Rattle.farm_lines.specs.Asked.{heard_entry};
ghost use Rattle.farm_lines.specs.Transcript.{entry_answer, unless_memory};
ghost use Rattle.booking_rule.specs.Kept.{first_view};
ghost use Rattle.booking_table.specs.Seats.{IsSeatOf, view};
ghost use Rattle.line_answers.specs.recording_turns.specs.Resting.{split_in};
ghost use Rattle.line_answers.specs.Asking.{IsNoBooking};
ghost use Rattle.line_answers.specs.LineAnswers.{MayStoreEntry};
ghost use Rattle.line_answers.specs.Lines.{shown};
ghost use Rattle.world_answers.specs.Marks.{IsMarked, IsTaken};
ghost use Rattle.world_answers.specs.Refusing.{new_refusing};

use crate::refusing::Refusing;
use booking_table::{Seat, Table};
use farm_lines::Report;
use farm_types::Entry;
use line_answers::booking_recorder::{Naming, Recorder};
use line_answers::farm_core::Farm;
use line_answers::{ReplyLine, Taken, answer_entry, take_report};
use std::alloc::{AllocError, Global};
use std::marker::Brand;

/// What came of a request of one entry: the farm, and the line of the reply.
#[derive(Drop)]
pub(crate) struct Came {
    pub farm: Farm,
    pub line: ReplyLine,
}

/// What came of a report: the farm, and what is told.
#[derive(Drop)]
pub(crate) struct CameReport {
    pub farm: Farm,
    pub taken: Taken,
}

/// Answers a request of one entry on a copy of the farm, whose store refuses the commit after so many, or none.
pub(crate) fn answer_act(
    alloc: Global,
    farm: &Farm,
    entry: &Entry,
    due: Option<u32>,
) -> Result<Came, AllocError>
    requires formed { IsFormed entry.now }
    requires unbooked { IsNoBooking entry.now.act }
    ensures { IfOk result (λ came. IsMarked farm.now (λ mark. unless_memory mark (entry_answer farm.now entry.now mark (refusal_of farm.now entry.now)))
        (MayStoreEntry farm.now entry.now) due came.farm (shown came.line)) }
{
    let copy = farm.copy(alloc)?;
    let (table, seat) = Table::make(alloc)?;
    answer_act_on::<Brand>(alloc, &table, seat, copy, entry, due)
}

// The same on this table, which was just made.
fn answer_act_on<N: Naming>(
    alloc: Global,
    table: &Table,
    seat: Seat,
    farm: Farm,
    entry: &Entry,
    due: Option<u32>,
) -> Result<Came, AllocError>
    requires table { table.now ≡ N.table }
    requires seat { IsSeatOf table.now seat }
    requires first { view seat ≡ first_view }
    requires formed { IsFormed entry.now }
    requires unbooked { IsNoBooking entry.now.act }
    ensures { IfOk result (λ came. IsMarked farm (λ mark. unless_memory mark (entry_answer farm entry.now mark (refusal_of farm entry.now)))
        (MayStoreEntry farm entry.now) due came.farm (shown came.line)) }
{
    let mut recorder: Recorder<Refusing, N> = Recorder::make(
        alloc,
        farm,
        Refusing::make(due),
        table,
        seat,
    );
    let came = answer_act_with(alloc, table, &mut recorder, entry, due);
    let _rest = recorder.close();
    came
}

// The same by this recorder, which has recorded nothing yet, and which no seat was split off of. It is lent: letting a whole recorder go on each way out
// takes minutes to check.
fn answer_act_with<N: Naming>(
    alloc: Global,
    table: &Table,
    recorder: &mut Recorder<Refusing, N>,
    entry: &Entry,
    due: Option<u32>,
) -> Result<Came, AllocError>
    requires table { table.now ≡ N.table }
    requires keeper { recorder.old.keeper ≡ new_refusing due }
    requires alone { split_in recorder.old.view.desk ≡ 0 }
    requires fresh { recorder.old.view.journal ≡ [] }
    requires formed { IsFormed entry.now }
    requires unbooked { IsNoBooking entry.now.act }
    ensures { IfOk result (λ came. IsMarked recorder.old.farm
        (λ mark. unless_memory mark (entry_answer recorder.old.farm entry.now mark (refusal_of recorder.old.farm entry.now)))
        (MayStoreEntry recorder.old.farm entry.now) due came.farm (shown came.line)) }
{
    let line = match answer_entry(alloc, table, recorder, entry) {
        Ok(line) => line,
        Err(_) => unreachable!(),
    };
    let farm = recorder.read().copy(alloc)?;
    Ok(Came { farm, line })
}

/// Takes a report on a copy of the farm, whose store refuses the commit after so many, or none.
pub(crate) fn answer_report(
    alloc: Global,
    farm: &Farm,
    report: Report,
    moment: u64,
    due: Option<u32>,
) -> Result<CameReport, AllocError>
    requires { IsFormed (heard_entry report moment) }
    ensures { IfOk result (λ came. IsTaken farm.now report moment due came.farm came.taken) }
{
    let copy = farm.copy(alloc)?;
    let (table, seat) = Table::make(alloc)?;
    answer_report_on::<Brand>(alloc, &table, seat, copy, report, moment, due)
}

// The same on this table, which was just made.
fn answer_report_on<N: Naming>(
    alloc: Global,
    table: &Table,
    seat: Seat,
    farm: Farm,
    report: Report,
    moment: u64,
    due: Option<u32>,
) -> Result<CameReport, AllocError>
    requires table { table.now ≡ N.table }
    requires seat { IsSeatOf table.now seat }
    requires first { view seat ≡ first_view }
    requires formed { IsFormed (heard_entry report moment) }
    ensures { IfOk result (λ came. IsTaken farm report moment due came.farm came.taken) }
{
    let mut recorder: Recorder<Refusing, N> = Recorder::make(
        alloc,
        farm,
        Refusing::make(due),
        table,
        seat,
    );
    let came = answer_report_with(alloc, table, &mut recorder, report, moment, due);
    let _rest = recorder.close();
    came
}

// The same by this recorder, which has recorded nothing yet, and which no seat was split off of.
fn answer_report_with<N: Naming>(
    alloc: Global,
    table: &Table,
    recorder: &mut Recorder<Refusing, N>,
    report: Report,
    moment: u64,
    due: Option<u32>,
) -> Result<CameReport, AllocError>
    requires table { table.now ≡ N.table }
    requires keeper { recorder.old.keeper ≡ new_refusing due }
    requires alone { split_in recorder.old.view.desk ≡ 0 }
    requires fresh { recorder.old.view.journal ≡ [] }
    requires formed { IsFormed (heard_entry report moment) }
    ensures { IfOk result (λ came. IsTaken recorder.old.farm report moment due came.farm came.taken) }
{
    let taken = take_report(alloc, table, recorder, report, moment);
    let farm = recorder.read().copy(alloc)?;
    Ok(CameReport { farm, taken })
}
