//! Prepares what hosts say and what is done to them: boots, reports, locks, and time that passed.

ghost use Rattle.std.specs.Prelude.{◌≡◌, ◌≤◌, ◌==◌, false, slice_get, Some};
ghost use Rattle.farm_types.specs.Faults.{IsRefusal};
ghost use Rattle.farm_types.specs.Kept.{KeepsRows};
ghost use Rattle.farm_types.specs.Limits.{BootKeepsLimits};
ghost use Rattle.farm_types.specs.Lost.{count_on};
ghost use Rattle.farm_types.specs.Step.{is_silent, name_of_alloc};
ghost use Rattle.farm_types.specs.declared.answer.Answer.TheVariants as answer;
ghost use Rattle.farm_types.specs.declared.entry.Act.TheVariants as act;
ghost use Rattle.farm_types.specs.declared.refusal.Refusal.TheVariants.{Exists};
ghost use Rattle.farm_changes.specs.Change.{Prepares, boot_in};
ghost use Rattle.farm_changes.specs.Refused.{IsBootFault};
ghost use Rattle.farm_changes.specs.SilentCounts.{is_silent_one};
ghost use Rattle.farm_changes.specs.declared.act_answer.ActAnswer.TheVariants as known;
ghost use Rattle.farm_changes.specs.declared.change.More.TheVariants as more;
ghost use Rattle.farm_changes.specs.declared.change.Reserved.TheVariants as taken;

use crate::change::{Change, More};
use crate::preparing::change_of;
use crate::refused::existing_alloc;
use crate::reports::heard_rows;
use crate::rows_of::{boot_rows, expired_rows, locked_rows, opened_rows};
use farm_books::Books;
use farm_draft::Rows;
use farm_types::{
    AllocNo, Answer, BootLine, Counted, FarmFault, HeardAct, HostNo, LAST_BOOT, LockState,
    MOST_HOSTS, Text,
};
use host_book::{BootPlan, HostRefusal};
use std::alloc::Global;

/// Prepares that every host that is up counts as heard.
pub(crate) fn prepare_opened(alloc: Global, books: &Books, moment: u64) -> Result<Change, FarmFault>
    requires kept { KeepsRows books.now.farm }
    requires ahead { books.now.farm.moment ≤ moment }
    ensures { Prepares books.now.farm (record { moment = moment; act = act.Opened }) result }
{
    let rows = opened_rows(alloc, books, moment)?;
    Ok(change_of(moment, Answer::Opened, rows, More::Nothing))
}

/// Prepares that a host of the allocation that it names boots.
pub(crate) fn prepare_boot(
    alloc: Global,
    books: &Books,
    moment: u64,
    line: &BootLine,
) -> Result<Change, FarmFault>
    requires kept { KeepsRows books.now.farm }
    requires ahead { books.now.farm.moment ≤ moment }
    requires limits { BootKeepsLimits line.now }
    ensures { Prepares books.now.farm (record { moment = moment; act = act.Boot line.now }) result }
{
    let Some(allocation) = books.alloc_named(line.alloc.as_str()) else {
        return Err(FarmFault::unknown(alloc, &line.alloc));
    };
    let plan = match books.check_boot(line, allocation) {
        Ok(plan) => plan,
        Err(refusal) => return Err(boot_fault(alloc, books, refusal)),
    };
    let rows = boot_rows(alloc, books, moment, line)?;
    let answer = Answer::Boot {
        boot: boot_of(&plan),
        nonce: line.nonce,
    };
    let line = line.copy(alloc)?;
    Ok(change_of(moment, answer, rows, More::Boot { plan, line }))
}

// The boot number that a planned boot answers.
fn boot_of(plan: &BootPlan) -> u32
    ensures { result ≡ boot_in plan.now }
{
    match plan {
        BootPlan::New { boot, .. } => *boot,
        BootPlan::Same { boot, .. } => *boot,
        BootPlan::Again { boot, .. } => *boot,
    }
}

// Why a boot isn't taken.
fn boot_fault(alloc: Global, books: &Books, refusal: HostRefusal) -> FarmFault
    ensures { IsBootFault books.now.farm refusal result }
{
    match refusal {
        HostRefusal::OtherAlloc { alloc: other } => existing_number(alloc, books, other),
        HostRefusal::HostsFull => FarmFault::full(u64::from(MOST_HOSTS), Counted::Hosts),
        HostRefusal::BootsSpent => FarmFault::full(u64::from(LAST_BOOT), Counted::Boots),
    }
}

// That the allocation of that number is there. A number without one has an empty name.
fn existing_number(alloc: Global, books: &Books, number: AllocNo) -> FarmFault
    ensures { IsRefusal (Exists (name_of_alloc (slice_get books.now.farm.allocs number))) result }
{
    match books.allocation(number) {
        None => FarmFault::existing(alloc, &Text::from_string(String::new(alloc))),
        Some(row) => existing_alloc(alloc, row.facility.as_str(), row.tag.as_str()),
    }
}

/// Prepares that a host was heard.
pub(crate) fn prepare_heard(
    alloc: Global,
    books: &Books,
    moment: u64,
    heard: &HeardAct,
) -> Result<Change, FarmFault>
    requires kept { KeepsRows books.now.farm }
    requires ahead { books.now.farm.moment ≤ moment }
    ensures { Prepares books.now.farm (record { moment = moment; act = act.Heard heard.now }) result }
{
    let Some(host) = books.host_named(heard.host.as_str()) else {
        return Err(FarmFault::unknown(alloc, &heard.host));
    };
    books.check_heard(host, heard.boot, heard.seq)?;
    let rows = heard_rows(alloc, books, moment, host, heard)?;
    Ok(report_change(moment, host, rows))
}

// The change of a host's report, which leaves those rows.
fn report_change(moment: u64, host: HostNo, rows: Rows) -> Change
    ensures { result
        ≡ record {
          moment = moment;
          answer = known.Whole answer.Heard;
          heard = Some host;
          rows = rows;
          more = more.Nothing;
          reserved = false;
          memory = taken.None;
        } }
{
    let mut change = change_of(moment, Answer::Heard, rows, More::Nothing);
    change.heard = Some(host);
    change
}

/// Prepares that a host's lock gets that state.
pub(crate) fn prepare_lock(
    alloc: Global,
    books: &Books,
    moment: u64,
    host: &Text,
    lock: LockState,
) -> Result<Change, FarmFault>
    requires kept { KeepsRows books.now.farm }
    requires ahead { books.now.farm.moment ≤ moment }
    ensures { Prepares books.now.farm (record { moment = moment; act = act.Lock host.now lock }) result }
{
    let Some(number) = books.host_named(host.as_str()) else {
        return Err(FarmFault::unknown(alloc, host));
    };
    let rows = locked_rows(alloc, books, moment, number, lock)?;
    Ok(change_of(moment, Answer::Lock, rows, More::Nothing))
}

/// Prepares that time passed.
pub(crate) fn prepare_tick(alloc: Global, books: &Books, moment: u64) -> Result<Change, FarmFault>
    requires kept { KeepsRows books.now.farm }
    requires ahead { books.now.farm.moment ≤ moment }
    ensures { Prepares books.now.farm (record { moment = moment; act = act.Tick }) result }
{
    let rows = expired_rows(alloc, books, moment)?;
    let answer = Answer::Tick {
        down: books.count_silent(moment),
        lost: count_lost(books, moment),
    };
    Ok(change_of(moment, answer, rows, More::Nothing))
}

// How many attempts are on hosts that are silent. Where no host is silent, none is looked at, and else each silent host's own attempts, never all
// slots.
fn count_lost(books: &Books, moment: u64) -> u32
    ensures { result ≡ count_on (is_silent books.now.farm moment) books.now.farm.slots }
{
    if books.count_silent(moment) == 0 {
        return 0;
    }
    // There are at most 65,536 slots, so that their attempts can be counted.
    let _slots = books.slots();
    let mut count = 0;
    for host in 0..books.count_hosts() {
        count += count_silenced(books, HostNo(host as u16), moment);
    }
    count
}

// How many attempts are on the host, where it is silent.
fn count_silenced(books: &Books, host: HostNo, moment: u64) -> u32
    ensures { result ≡ count_on (is_silent_one books.now.farm moment host) books.now.farm.slots }
{
    if books.is_silent(host, moment) {
        count_attempts(books, host)
    } else {
        0
    }
}

// How many attempts are on the host.
fn count_attempts(books: &Books, host: HostNo) -> u32
    ensures { result ≡ count_on (λ n. n == host) books.now.farm.slots }
{
    // There are at most 65,536 slots, so that their attempts can be counted.
    let _slots = books.slots();
    let mut count = 0;
    let mut next = books.first_attempt(host);
    while let Some(slot) = next {
        count += 1;
        next = books.next_attempt(slot);
    }
    count
}
