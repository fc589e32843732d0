//! The rounds of a load.

ghost use Rattle.std.specs.Prelude.{◌≡◌, ◌≤◌, ◌<◌, ◌+◌, ◌*◌, ◌^◌, IfOk, length};
ghost use Rattle.line_answers.specs.booking_recorder.specs.Going.{Journals};
ghost use Rattle.farm_gen.specs.Load.{IsLoad};
ghost use Rattle.farm_load.specs.Loads.{has_finished, load_hosts, most_reports, new_host};
ghost use Rattle.farm_load.specs.Summaries.{RunsLoad, rounds_of};
ghost use Rattle.farm_load.specs.declared.load_end.LoadEnd.TheVariants.{Finished};
ghost use Rattle.line_answers.specs.declared.limits.TheConstants.{ENTRIES_EACH};
ghost use Rattle.line_answers.specs.recording_turns.specs.Resting.{split_in};

use crate::counts::Counts;
use crate::limits::{HOSTS, LOAD_JOB, MOST_ROUNDS};
use crate::load_end::LoadEnd;
use crate::load_host::LoadHost;
use crate::summary::Summary;
use crate::turns::take_turn;
use booking_table::Table;
use farm_keeper::Keeper;
use farm_types::{Items, JobNo, JobState, Text};
use line_answers::booking_recorder::{Naming, Recorder};
use line_answers::farm_core::Farm;
use std::alloc::{AllocError, Global};
use std::collections::VecDeque;

/// Runs a load of n frames a layer over its farm: round after round each host reports in turn, at the moment that is the round's number, and is answered as a
/// line would be, until the job is finished. Each report says that all that the reply before it launched is done. What is recorded is shown on the words,
/// from which no seat was split off, so that no host is held.
#[tactic(auto, using(crate::proofs::RunLemmas::nothing_run))]
pub fn run_load<K: Keeper, N: Naming>(
    alloc: Global,
    table: &Table,
    recorder: &mut Recorder<K, N>,
    n: u32,
) -> LoadEnd
    requires load { IsLoad n }
    requires table { table.now ≡ N.table }
    requires alone { split_in recorder.old.view.desk ≡ 0 }
    requires room { length recorder.old.view.journal + ENTRIES_EACH * most_reports < 2 ^ 64 }
    ensures run { RunsLoad n recorder.old.farm result recorder.new.farm (K.faults recorder.old.keeper) (K.faults recorder.new.keeper)
        (Journals recorder.old.view recorder.new.view) }
    ensures told { K.tells recorder.new.keeper → K.tells recorder.old.keeper }
{
    match load_hosts(alloc) {
        Ok(hosts) => run_rounds(alloc, table, recorder, n, hosts),
        Err(_) => LoadEnd::NoMemory,
    }
}

// Runs it from its first round on.
fn run_rounds<K: Keeper, N: Naming>(
    alloc: Global,
    table: &Table,
    recorder: &mut Recorder<K, N>,
    n: u32,
    hosts: VecDeque<LoadHost>,
) -> LoadEnd
    requires load { IsLoad n }
    requires hosts { hosts.items ≡ load_hosts }
    requires table { table.now ≡ N.table }
    requires alone { split_in recorder.old.view.desk ≡ 0 }
    requires room { length recorder.old.view.journal + ENTRIES_EACH * most_reports < 2 ^ 64 }
    ensures run { RunsLoad n recorder.old.farm result recorder.new.farm (K.faults recorder.old.keeper) (K.faults recorder.new.keeper)
        (Journals recorder.old.view recorder.new.view) }
    ensures told { K.tells recorder.new.keeper → K.tells recorder.old.keeper }
{
    let mut hosts = hosts;
    let mut counts = Counts {
        attempts: 0,
        failed: 0,
    };
    for reports in 0..HOSTS * MOST_ROUNDS {
        if has_finished(recorder.read()) {
            return finished(n, reports, counts);
        }
        let Ok(()) = take_turn(alloc, table, recorder, n, reports, &mut hosts, &mut counts) else {
            return LoadEnd::NoMemory;
        };
    }
    if has_finished(recorder.read()) {
        finished(n, HOSTS * MOST_ROUNDS, counts)
    } else {
        LoadEnd::Spent
    }
}

// The hosts before the first report.
fn load_hosts(alloc: Global) -> Result<VecDeque<LoadHost>, AllocError>
    ensures { IfOk result (λ hosts. hosts.items ≡ load_hosts) }
{
    let mut hosts = VecDeque::new(alloc);
    hosts.push_back(new_host(alloc, "h1")?)?;
    hosts.push_back(new_host(alloc, "h2")?)?;
    hosts.push_back(new_host(alloc, "h3")?)?;
    hosts.push_back(new_host(alloc, "h4")?)?;
    Ok(hosts)
}

// A host to which nothing was replied yet.
fn new_host(alloc: Global, name: &str) -> Result<LoadHost, AllocError>
    ensures { IfOk result (λ host. host ≡ new_host name.now) }
{
    Ok(LoadHost {
        name: Text::from_str(alloc, name)?,
        launched: Items::new(alloc),
    })
}

// Whether the job is finished.
fn has_finished(farm: &Farm) -> bool
    ensures { result ≡ has_finished farm.now }
{
    match farm.books().job(JobNo(LOAD_JOB)) {
        Some(job) => matches!(job.state, JobState::Finished),
        None => false,
    }
}

// The end of a run whose job finished at the last of so many reports.
fn finished(n: u32, reports: u32, counts: Counts) -> LoadEnd
    requires load { IsLoad n }
    requires within { reports ≤ HOSTS * MOST_ROUNDS }
    ensures { result ≡ Finished (record { frames = 2 * n; attempts = counts.attempts; failed = counts.failed; rounds = rounds_of reports }) }
{
    LoadEnd::Finished {
        summary: Summary {
            frames: 2 * n,
            attempts: counts.attempts,
            failed: counts.failed,
            rounds: (reports + (HOSTS - 1)) / HOSTS,
        },
    }
}
