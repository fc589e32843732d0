//! What stands against the booking of a claim that has its word.

ghost use Rattle.std.specs.Prelude.{◌≡◌, ◌==◌, false, option_and_then, slice_get};
ghost use Rattle.farm_types.specs.Run.{limit_at};
ghost use Rattle.booking_recorder.specs.Claims.{IsAgainst, IsCause, IsNoStop};
ghost use Rattle.booking_recorder.specs.Readers.{booked_by, burst_by, limit_for, lock_at, most_by, running_by, state_at, sub_for};
ghost use Rattle.booking_recorder.specs.Recording.{most_entries};

use crate::refusal::ConfirmRefusal;
use booking_reasons::NotBooked;
use farm_books::Books;
use farm_types::{Cores, HostNo, HostState, LimitNo, LockState, Slot, SubRow};

/// What stands against the booking of a frame that has its place.
pub(crate) fn stands_against(
    books: &Books,
    count: u64,
    slot: Slot,
    host: HostNo,
    why: NotBooked,
) -> ConfirmRefusal
    requires room { (count == most_entries) ≡ false }
    requires why { IsAgainst books.now.farm slot host why }
    ensures no_stop { IsNoStop result }
    ensures cause { IsCause (λ found. ⊥) books.now.farm count slot host result }
{
    match why {
        NotBooked::JobPaused => ConfirmRefusal::Paused,
        NotBooked::HostClosed => ConfirmRefusal::HostClosed {
            state: state_of(books, host),
            lock: lock_of(books, host),
        },
        NotBooked::PastBurst => {
            let sub = sub_for(books, slot, host);
            ConfirmRefusal::BurstLowered {
                booked: booked_of(books, &sub),
                burst: burst_of(&sub),
            }
        }
        NotBooked::AtLimit => {
            let limit = limit_of(books, slot);
            ConfirmRefusal::LimitLowered {
                running: running_in(books, &limit),
                most: most_in(books, &limit),
            }
        }
        NotBooked::NoFrame
        | NotBooked::NotWaiting
        | NotBooked::NoJob
        | NotBooked::NoLayer
        | NotBooked::NoHost
        | NotBooked::VersionSpent
        | NotBooked::JobFinished
        | NotBooked::NotOpen
        | NotBooked::OtherFacility
        | NotBooked::NoCapacity => unreachable!(),
    }
}

fn state_of(books: &Books, host: HostNo) -> HostState
    ensures { result ≡ state_at books.now.farm host }
{
    match books.host(host) {
        None => HostState::Down,
        Some(row) => row.state,
    }
}

fn lock_of(books: &Books, host: HostNo) -> LockState
    ensures { result ≡ lock_at books.now.farm host }
{
    match books.host(host) {
        None => LockState::Unlocked,
        Some(row) => row.lock,
    }
}

// The subscription on which the slot's frame runs on the host.
fn sub_for(books: &Books, slot: Slot, host: HostNo) -> Option<SubRow>
    ensures { result ≡ sub_for books.now.farm slot host }
{
    let Some(row) = books.slot(slot) else {
        return None;
    };
    let Some(frame) = &row.frame else {
        return None;
    };
    let Some(job) = books.job(frame.job) else {
        return None;
    };
    let Some(host_row) = books.host(host) else {
        return None;
    };
    books.sub_of(job.show, host_row.alloc)
}

fn booked_of(books: &Books, sub: &Option<SubRow>) -> Cores
    ensures { result ≡ booked_by books.now.farm sub.now }
{
    match sub {
        None => Cores(0),
        Some(sub) => books.booked(sub.sub),
    }
}

fn burst_of(sub: &Option<SubRow>) -> Cores
    ensures { result ≡ burst_by sub.now }
{
    match sub {
        None => Cores(0),
        Some(sub) => sub.burst,
    }
}

// The limit of the layer of the slot's frame, by its number.
fn limit_of(books: &Books, slot: Slot) -> Option<LimitNo>
    ensures { result ≡ limit_at books.now.farm slot }
{
    let Some(row) = books.slot(slot) else {
        return None;
    };
    let Some(frame) = &row.frame else {
        return None;
    };
    let Some(layer) = books.layer(frame.job, frame.layer) else {
        return None;
    };
    layer.limit
}

fn running_in(books: &Books, limit: &Option<LimitNo>) -> u32
    ensures { result ≡ running_by books.now.farm limit.now (option_and_then (λ n. slice_get books.now.farm.limits n) limit.now) }
{
    let Some(limit) = limit else {
        return 0;
    };
    match books.limits().get(*limit) {
        None => 0,
        Some(state) => state.running,
    }
}

fn most_in(books: &Books, limit: &Option<LimitNo>) -> u32
    ensures { result ≡ most_by (option_and_then (λ n. slice_get books.now.farm.limits n) limit.now) }
{
    let Some(limit) = limit else {
        return 0;
    };
    match books.limits().get(*limit) {
        None => 0,
        Some(state) => state.most,
    }
}
