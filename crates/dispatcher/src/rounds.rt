//! The round of bookings that follows a report, by the recorder alone.

ghost use Rattle.std.specs.Prelude.{◌≡◌, ◌≤◌, ◌<◌, ◌+◌, ◌-◌, ◌^◌, length, take};
ghost use Rattle.farm_types.specs.Dispatch.{round_for, round_from};
ghost use Rattle.booking_recorder.specs.recorder.specs.Recording.{ChangesNone};
ghost use Rattle.booking_recorder.specs.recording_turns.specs.Resting.{split_in};
ghost use Rattle.booking_recorder.specs.Going.{GoesOn};
ghost use Rattle.dispatcher.specs.Ready.{AreReady, IsReady};
ghost use Rattle.dispatcher.specs.Rounds.{HasWalked, IsRound, Offers, cut_of, is_store_cut, left_after, left_by};

use crate::walked::Walked;
use booking_recorder::recorder::RecordFault;
use booking_recorder::{BookResult, ConfirmRefusal, Naming, Recorder};
use booking_table::Table;
use dispatch_plan::{dispatch_lists_each_once, plan};
use farm_keeper::Keeper;
use farm_types::{BOOKINGS_EACH, Candidate, Cut, HostNo};
use std::alloc::Global;

/// Books the frames that the plan for the host offers, in turn, each where it still may be booked, until 12 are, by the recorder alone: no seat was split
/// off. Where the store fails at a booking, or memory runs out, the round ends with those before it. It says what ended it, and how many were booked.
pub fn book_alone<K: Keeper, N: Naming>(
    alloc: Global,
    table: &Table,
    recorder: &mut Recorder<K, N>,
    host: HostNo,
    moment: u64,
) -> Walked
    requires table { table.now ≡ N.table }
    requires alone { split_in recorder.old.view.desk ≡ 0 }
    requires room { length recorder.old.view.journal + BOOKINGS_EACH < 2 ^ 64 }
    ensures round { IsRound recorder.old.farm host moment result recorder.new.farm }
    ensures few { result.booked ≤ BOOKINGS_EACH }
    ensures went { GoesOn K.commits K.tells K.faults recorder.old recorder.new (round_for recorder.old.farm host moment)
        (take result.booked (round_for recorder.old.farm host moment)) (is_store_cut result.cut) }
    ensures same { ChangesNone recorder.old.farm (round_for recorder.old.farm host moment) → recorder.new.keeper ≡ recorder.old.keeper }
{
    dispatch_lists_each_once();
    match plan(alloc, recorder.read(), host) {
        Ok(candidates) => book_in_turn(alloc, table, recorder, moment, candidates.as_slice()),
        Err(_) => walked(Cut::Memory, BOOKINGS_EACH),
    }
}

// The candidates in turn, until so many are booked.
fn book_in_turn<K: Keeper, N: Naming>(
    alloc: Global,
    table: &Table,
    recorder: &mut Recorder<K, N>,
    moment: u64,
    candidates: &[Candidate],
) -> Walked
    requires table { table.now ≡ N.table }
    requires alone { split_in recorder.old.view.desk ≡ 0 }
    requires room { length recorder.old.view.journal + BOOKINGS_EACH < 2 ^ 64 }
    requires ready { AreReady recorder.old.farm candidates.now }
    ensures round { HasWalked recorder.old.farm (round_from BOOKINGS_EACH recorder.old.farm moment candidates.now) result recorder.new.farm }
    ensures few { result.booked ≤ BOOKINGS_EACH }
    ensures went { GoesOn K.commits K.tells K.faults recorder.old recorder.new (round_from BOOKINGS_EACH recorder.old.farm moment candidates.now)
        (take result.booked (round_from BOOKINGS_EACH recorder.old.farm moment candidates.now)) (is_store_cut result.cut) }
    ensures same { ChangesNone recorder.old.farm (round_from BOOKINGS_EACH recorder.old.farm moment candidates.now)
        → recorder.new.keeper ≡ recorder.old.keeper }
{
    let mut left = BOOKINGS_EACH;
    for candidate in candidates {
        left = match offer(alloc, table, recorder, left, candidate, moment) {
            Ok(left) => left,
            Err(fault) => return cut_by(fault, left),
        };
    }
    walked(Cut::Whole, left)
}

// How a round went that a fault ended with so many bookings left.
fn cut_by(fault: RecordFault, left: u32) -> Walked
    requires { left ≤ BOOKINGS_EACH }
    ensures cut { result.cut ≡ cut_of fault }
    ensures booked { result.booked ≡ BOOKINGS_EACH - left }
    ensures few { result.booked ≤ BOOKINGS_EACH }
{
    match fault {
        RecordFault::Store => walked(Cut::Store, left),
        RecordFault::NoMemory => walked(Cut::Memory, left),
    }
}

// How a round went that so many bookings are left of.
fn walked(cut: Cut, left: u32) -> Walked
    requires { left ≤ BOOKINGS_EACH }
    ensures cut { result.cut ≡ cut }
    ensures booked { result.booked ≡ BOOKINGS_EACH - left }
    ensures few { result.booked ≤ BOOKINGS_EACH }
{
    Walked {
        cut,
        booked: BOOKINGS_EACH - left,
    }
}

// Books the candidate where bookings are left and it still may be booked, and says how many are left then.
fn offer<K: Keeper, N: Naming>(
    alloc: Global,
    table: &Table,
    recorder: &mut Recorder<K, N>,
    left: u32,
    candidate: &Candidate,
    moment: u64,
) -> Result<u32, RecordFault>
    requires table { table.now ≡ N.table }
    requires alone { split_in recorder.old.view.desk ≡ 0 }
    requires room { length recorder.old.view.journal + left < 2 ^ 64 }
    requires ready { IsReady recorder.old.farm candidate.now }
    ensures { Offers K.commits K.tells K.faults left recorder.old candidate.now moment result recorder.new }
{
    if left == 0 {
        return Ok(0);
    }
    offer_due(alloc, table, recorder, left, candidate, moment)
}

// Books the candidate where it still may be booked, and says how many bookings are left then.
fn offer_due<K: Keeper, N: Naming>(
    alloc: Global,
    table: &Table,
    recorder: &mut Recorder<K, N>,
    left: u32,
    candidate: &Candidate,
    moment: u64,
) -> Result<u32, RecordFault>
    requires some { 0 < left }
    requires table { table.now ≡ N.table }
    requires alone { split_in recorder.old.view.desk ≡ 0 }
    requires room { length recorder.old.view.journal + left < 2 ^ 64 }
    requires ready { IsReady recorder.old.farm candidate.now }
    ensures { Offers K.commits K.tells K.faults left recorder.old candidate.now moment result recorder.new }
{
    let came = recorder.book(
        alloc,
        table,
        candidate.slot,
        candidate.version,
        candidate.sub,
        candidate.host,
        moment,
    );
    left_after(left, &came)
}

/// How many bookings are left after one was tried, or the fault that ends the round.
pub fn left_after(left: u32, came: &BookResult) -> Result<u32, RecordFault>
    requires { 0 < left }
    ensures { result ≡ left_after left came.now }
{
    match came {
        BookResult::Booked { .. } => Ok(left - 1),
        BookResult::Confirm { why } => left_by(left, *why),
        BookResult::Burst { .. }
        | BookResult::Limit { .. }
        | BookResult::Host { .. }
        | BookResult::Taken { .. } => Ok(left),
    }
}

// .. where a claim was made.
fn left_by(left: u32, why: ConfirmRefusal) -> Result<u32, RecordFault>
    ensures { result ≡ left_by left why }
{
    match why {
        ConfirmRefusal::Store => Err(RecordFault::Store),
        ConfirmRefusal::Memory => Err(RecordFault::NoMemory),
        ConfirmRefusal::Withdrawn { .. }
        | ConfirmRefusal::EntriesSpent
        | ConfirmRefusal::Paused
        | ConfirmRefusal::HostClosed { .. }
        | ConfirmRefusal::BurstLowered { .. }
        | ConfirmRefusal::LimitLowered { .. } => Ok(left),
    }
}
