//! Which completions of a report change the farm, and are failures.

ghost use Rattle.std.specs.Prelude.{◌≡◌, ◌≤◌, ◌&&◌, ◌∷◌, [], count_by, length, not, if◌then◌else◌};
ghost use Rattle.std.specs.List.{list_any};
ghost use Rattle.farm_types.specs.Hosts.{is_unheard};
ghost use Rattle.farm_types.specs.Run.{counted_in, is_same};
ghost use Rattle.farm_types.specs.Step.{expire, is_live, is_silent, moment_of};
ghost use Rattle.farm_types.specs.declared.entry.Act.TheVariants as act;
ghost use Rattle.farm_lines.specs.Asked.{entry_at};
ghost use Rattle.farm_load.specs.Loads.{failed_in, fails};

use farm_gen::load_exit;
use farm_types::{Attempt, DoneItem, HeardAct, HostNo, HostRow, SILENT_SECONDS};
use line_answers::farm_core::Farm;

/// How many completions of the report change the farm when it is taken at the moment (seconds), and are of attempts that fail.
#[tactic(auto, using(crate::proofs::FailureLemmas::failed_nowhere))]
pub(crate) fn failures(farm: &Farm, n: u32, heard: &HeardAct, moment: u64) -> u64
    ensures value { result ≡ failed_in n farm.now (entry_at moment (act.Heard heard.now) ∷ []) }
    ensures few { result ≤ length heard.now.done }
{
    match farm.books().host_named(heard.host.as_str()) {
        Some(host) => failures_on(farm, n, host, heard, moment),
        None => 0,
    }
}

// The same on a host: none where it is silent by then, so that its attempts are lost.
#[tactic(auto, using(crate::proofs::FailureLemmas::silent_none, crate::proofs::FailureLemmas::heard_same))]
fn failures_on(farm: &Farm, n: u32, host: HostNo, heard: &HeardAct, moment: u64) -> u64
    ensures value { result ≡ count_by (fails n) (counted_in (expire farm.now (moment_of farm.now moment)) host heard.now.boot heard.now.done) }
    ensures few { result ≤ length heard.now.done }
{
    if is_silent(farm, host, moment) {
        0
    } else {
        failures_among(farm, n, host, heard.boot, heard.done.as_slice())
    }
}

// Whether the host is unheard for too long at the moment.
fn is_silent(farm: &Farm, host: HostNo, moment: u64) -> bool
    ensures { result ≡ is_silent farm.now (moment_of farm.now moment) host }
{
    match farm.books().host(host) {
        Some(row) => is_unheard(row, farm.books().moment().max(moment)),
        None => false,
    }
}

fn is_unheard(row: &HostRow, moment: u64) -> bool
    ensures { result ≡ is_unheard moment row.now }
{
    row.state.is_up() && moment.saturating_sub(row.heard) > SILENT_SECONDS
}

// How many of the completions are of attempts that are live on the host and fail, each counted where it stands for the first time.
fn failures_among(farm: &Farm, n: u32, host: HostNo, boot: u32, done: &[DoneItem]) -> u64
    ensures value { result ≡ count_by (fails n) (counted_in farm.now host boot done.now) }
    ensures few { result ≤ length done.now }
{
    let mut failing = 0;
    for (place, item) in done.iter().enumerate() {
        failing += failure(farm, n, host, boot, &done[..place], &item.attempt);
    }
    failing
}

// 1 for the first completion of an attempt that is live on the host and fails, and else 0.
fn failure(
    farm: &Farm,
    n: u32,
    host: HostNo,
    boot: u32,
    before: &[DoneItem],
    attempt: &Attempt,
) -> u64
    ensures value { result ≡ if (fails n attempt.now && is_live farm.now host boot attempt.now.slot attempt.now.version)
        && not (list_any (λ item. is_same attempt.now item.attempt) before.now) then 1 else 0 }
    ensures few { result ≤ 1 }
{
    if is_failure(farm, n, host, boot, attempt) && !stands_in(before, attempt) {
        1
    } else {
        0
    }
}

// Whether the attempt is live on the host, and fails.
fn is_failure(farm: &Farm, n: u32, host: HostNo, boot: u32, attempt: &Attempt) -> bool
    ensures { result ≡ (fails n attempt.now && is_live farm.now host boot attempt.now.slot attempt.now.version) }
{
    load_exit(n, *attempt).status == 1 && farm.books().is_live(host, boot, *attempt)
}

// Whether a completion of the attempt stands there.
fn stands_in(done: &[DoneItem], attempt: &Attempt) -> bool
    ensures { result ≡ list_any (λ item. is_same attempt.now item.attempt) done.now }
{
    done.iter().any(|item| attempt.slot == item.attempt.slot
        && attempt.version == item.attempt.version)
}
