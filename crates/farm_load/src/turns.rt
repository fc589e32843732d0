//! One report of a load.

ghost use Rattle.std.specs.Prelude.{◌≡◌, ◌≤◌, ◌<◌, ◌+◌, ◌^◌, IfOk, false, length};
ghost use Rattle.farm_types.specs.Formed.{IsFormed};
ghost use Rattle.farm_lines.specs.Asked.{heard_entry};
ghost use Rattle.farm_lines.specs.declared.limits.TheConstants.{LAUNCHES_EACH};
ghost use Rattle.farm_lines.specs.declared.reply.Reply.{Reply};
ghost use Rattle.line_answers.specs.LineAnswers.{is_short, tells_memory};
ghost use Rattle.line_answers.specs.Told.{Tells};
ghost use Rattle.farm_load.specs.Loads.{launched_by, load_done, load_report, most_reports, round_after};
ghost use Rattle.farm_load.specs.Turns.{HasReported, HasRoom, IsFormedHost, IsReady, Recorded, TakesTurn, failures_told};
ghost use Rattle.line_answers.specs.declared.limits.TheConstants.{ENTRIES_EACH};
ghost use Rattle.line_answers.specs.recording_turns.specs.Resting.{split_in};

use crate::counts::Counts;
use crate::failures::failures;
use crate::limits::HOSTS;
use crate::load_host::LoadHost;
use booking_table::Table;
use farm_gen::load_exit;
use farm_keeper::Keeper;
use farm_lines::{Reply, Report};
use farm_types::{Attempt, Cut, DoneItem, HeardAct, Items};
use line_answers::booking_recorder::{Naming, Recorder};
use line_answers::{ReportLine, Told, take_report};
use std::alloc::{AllocError, Global};
use std::collections::VecDeque;

/// The host whose turn it is reports, and waits behind the others then, with what the reply launches. The counts are those of the run so far. The only error is
/// that memory ran out.
pub(crate) fn take_turn<K: Keeper, N: Naming>(
    alloc: Global,
    table: &Table,
    recorder: &mut Recorder<K, N>,
    n: u32,
    reports: u32,
    hosts: &mut VecDeque<LoadHost>,
    counts: &mut Counts,
) -> Result<(), AllocError>
    requires ready { IsReady hosts.old.items counts.old reports }
    requires table { table.now ≡ N.table }
    requires alone { split_in recorder.old.view.desk ≡ 0 }
    requires journal { length recorder.old.view.journal + ENTRIES_EACH < 2 ^ 64 }
    ensures { TakesTurn n recorder.old.farm reports hosts.old.items counts.old result recorder.new.farm hosts.new.items counts.new
        (Recorded K.tells K.faults recorder.old recorder.new) }
{
    let Some(host) = hosts.pop_front() else {
        unreachable!()
    };
    let launched = host_turn(alloc, table, recorder, n, reports, &host, counts)?;
    hosts.push_back_reserved(LoadHost {
        name: host.name,
        launched,
    });
    Ok(())
}

// The host reports, and what the reply launches is told.
fn host_turn<K: Keeper, N: Naming>(
    alloc: Global,
    table: &Table,
    recorder: &mut Recorder<K, N>,
    n: u32,
    reports: u32,
    host: &LoadHost,
    counts: &mut Counts,
) -> Result<Items<Attempt>, AllocError>
    requires left { reports < most_reports }
    requires formed { IsFormedHost host.now }
    requires room { HasRoom counts.old }
    requires table { table.now ≡ N.table }
    requires alone { split_in recorder.old.view.desk ≡ 0 }
    requires journal { length recorder.old.view.journal + ENTRIES_EACH < 2 ^ 64 }
    ensures { HasReported n recorder.old.farm (load_report n (round_after reports) host.now) (round_after reports) counts.old result
        recorder.new.farm counts.new
        (Recorded K.tells K.faults recorder.old recorder.new) }
{
    let round = reports / HOSTS + 1;
    let report = report_of(alloc, n, round, host)?;
    take_counted(alloc, table, recorder, n, u64::from(round), report, counts)
}

// The report is taken at the moment and counted, and what the reply launches is told.
fn take_counted<K: Keeper, N: Naming>(
    alloc: Global,
    table: &Table,
    recorder: &mut Recorder<K, N>,
    n: u32,
    moment: u64,
    report: Report,
    counts: &mut Counts,
) -> Result<Items<Attempt>, AllocError>
    requires formed { IsFormed (heard_entry report moment) }
    requires few { length report.heard.done ≤ LAUNCHES_EACH }
    requires room { HasRoom counts.old }
    requires table { table.now ≡ N.table }
    requires alone { split_in recorder.old.view.desk ≡ 0 }
    requires journal { length recorder.old.view.journal + ENTRIES_EACH < 2 ^ 64 }
    ensures { HasReported n recorder.old.farm report moment counts.old result recorder.new.farm counts.new
        (Recorded K.tells K.faults recorder.old recorder.new) }
{
    let failing = failures(recorder.read(), n, &report.heard, moment);
    let taken = take_report(alloc, table, recorder, report, moment);
    recorder.read().kept();
    counts.attempts += u64::from(taken.booked);
    counts.failed += failures_told(&taken.told, failing);
    launched_by(alloc, taken.told)
}

// The failures of a report: none where it wasn't taken.
fn failures_told(told: &Told, failing: u64) -> u64
    ensures { (reply : Reply) → Tells told.now reply → result ≡ failures_told reply failing }
{
    match told {
        Told::Reported(_) => failing,
        Told::Other(_) => 0,
    }
}

// What is launched, unless it is told that memory ran out.
fn launched_by(alloc: Global, told: Told) -> Result<Items<Attempt>, AllocError>
    ensures launched { IfOk result (λ launched. (reply : Reply) → Tells told reply → launched ≡ launched_by reply) }
    ensures calm { IfOk result (λ _. (reply : Reply) → Tells told reply → tells_memory reply ≡ false) }
{
    match told {
        Told::Reported(line) => launched_in(line),
        Told::Other(Reply::NoMemory) => Err(AllocError),
        Told::Other(_) => Ok(Items::new(alloc)),
    }
}

// The attempts that are launched, unless memory cut the round short.
fn launched_in(line: ReportLine) -> Result<Items<Attempt>, AllocError>
    ensures launched { IfOk result (λ launched. launched ≡ line.launched) }
    ensures calm { IfOk result (λ _. is_short line.cut ≡ false) }
{
    if line.cut == Cut::Memory {
        return Err(AllocError);
    }
    Ok(line.launched)
}

// The host's report of a round.
fn report_of(alloc: Global, n: u32, round: u32, host: &LoadHost) -> Result<Report, AllocError>
    ensures { IfOk result (λ report. report ≡ load_report n round host.now) }
{
    Ok(Report {
        heard: HeardAct {
            host: host.name.copy(alloc)?,
            boot: 1,
            seq: u64::from(round),
            done: done_items(alloc, n, host.launched.as_slice())?,
        },
        running: Items::new(alloc),
    })
}

// The completions of the attempts that were launched.
fn done_items(alloc: Global, n: u32, launched: &[Attempt]) -> Result<Items<DoneItem>, AllocError>
    ensures { IfOk result (λ done. done ≡ load_done n launched.now) }
{
    let mut done = Items::new(alloc);
    for attempt in launched {
        done.push(DoneItem {
            attempt: *attempt,
            exit: load_exit(n, *attempt),
            free: None,
        })?;
    }
    Ok(done)
}
