//! The entries that a line makes where the store refuses nothing, one after the other, and which of them change a row.

ghost use Rattle.std.specs.Prelude.{◌≡◌, ◌∷◌, [], Some, IfOk, OnOk};
ghost use Rattle.farm_types.specs.Dispatch.{book_entry, round_for, round_from};
ghost use Rattle.farm_types.specs.Formed.{IsFormed};
ghost use Rattle.farm_types.specs.Step.{HasCondition};
ghost use Rattle.line_answers.specs.farm_core.specs.Bookings.{IsBookingOf};
ghost use Rattle.line_answers.specs.farm_core.specs.Change.{IsReady, IsUnreserved, Makes, after_change};
ghost use Rattle.farm_books.specs.Bookings.{IsAsked};
ghost use Rattle.dispatcher.specs.Ready.{AreReady, IsReady as IsReadyToBook};
ghost use Rattle.world_answers.specs.Walking.{Begins, Offered, WalkedOn, first_walk};

use crate::committing::apply;
use depend_law::legal_runs_keep_farms;
use dispatch_plan::{dispatch_lists_each_once, plan};
use farm_types::{Act, BOOKINGS_EACH, Candidate, Entry, FarmFault, HostNo, Items};
use line_answers::farm_core::{Booking, Change, Farm};
use std::alloc::{AllocError, Global};
use store_law::{batches_make_the_rows, farms_differ_in_their_stores};

/// The farm after entries, these entries, and whether each of them makes another row of the store or takes one away.
#[derive(Drop)]
pub(crate) struct Walk {
    pub farm: Farm,
    pub entries: Items<Entry>,
    pub stored: Items<bool>,
}

/// The farm after a line's first entry, whether that changes a row, and the host that it is of, if it is a report's.
#[derive(Drop)]
pub(crate) struct First {
    pub farm: Farm,
    pub stored: bool,
    pub heard: Option<HostNo>,
}

/// A line's first entry on a copy of the farm, where the farm takes it.
pub(crate) fn begin(alloc: Global, farm: &Farm, entry: &Entry) -> Result<Option<First>, AllocError>
    requires condition { HasCondition farm.now entry.now.act }
    requires formed { IsFormed entry.now }
    ensures { IfOk result (Begins farm.now entry.now) }
{
    match farm.prepare(alloc, entry) {
        Ok(change) => Ok(Some(begin_by(alloc, farm, entry, change)?)),
        Err(FarmFault::Refused { .. }) => Ok(None),
        Err(FarmFault::NoMemory) => Err(AllocError),
    }
}

// The first entry is taken, by its change.
fn begin_by(alloc: Global, farm: &Farm, entry: &Entry, change: Change) -> Result<First, AllocError>
    requires condition { HasCondition farm.now entry.now.act }
    requires formed { IsFormed entry.now }
    requires makes { Makes farm.now entry.now change }
    ensures { IfOk result (λ first. Begins farm.now entry.now (Some first)) }
{
    farm.kept();
    legal_runs_keep_farms();
    batches_make_the_rows();
    farms_differ_in_their_stores();
    let stored = !change.batch().is_empty();
    let heard = change.heard();
    let farm = changed(alloc, farm, change)?;
    Ok(First {
        farm,
        stored,
        heard,
    })
}

/// A walk of one entry.
pub(crate) fn walk_from(alloc: Global, first: First, entry: Entry) -> Result<Walk, AllocError>
    ensures { IfOk result (λ walk. walk ≡ first_walk first entry) }
{
    match lists_of(alloc, entry, first.stored) {
        Ok((entries, stored)) => Ok(Walk {
            farm: first.farm,
            entries,
            stored,
        }),
        Err(_) => {
            drop(first);
            Err(AllocError)
        }
    }
}

// The entry and whether it changes a row, each alone in a list.
fn lists_of(
    alloc: Global,
    entry: Entry,
    is_stored: bool,
) -> Result<(Items<Entry>, Items<bool>), AllocError>
    ensures { IfOk result (λ lists. (lists.0 ≡ entry ∷ []) × (lists.1 ≡ is_stored ∷ [])) }
{
    let entries = one(alloc, entry)?;
    let mut stored = Items::new(alloc);
    stored.push(is_stored)?;
    Ok((entries, stored))
}

// A copy of the farm, changed so.
fn changed(alloc: Global, farm: &Farm, change: Change) -> Result<Farm, AllocError>
    requires ready { IsReady farm.now change }
    requires unreserved { IsUnreserved change }
    ensures { IfOk result (λ changed. changed ≡ after_change farm.now change) }
{
    match farm.copy(alloc) {
        Ok(copy) => apply_to(alloc, copy, change),
        Err(_) => {
            drop(change);
            Err(AllocError)
        }
    }
}

// The farm, changed so.
fn apply_to(alloc: Global, farm: Farm, change: Change) -> Result<Farm, AllocError>
    requires ready { IsReady farm change }
    requires unreserved { IsUnreserved change }
    ensures { IfOk result (λ changed. changed ≡ after_change farm change) }
{
    let mut farm = farm;
    apply(alloc, &mut farm, change)?;
    Ok(farm)
}

/// A list of one entry.
pub(crate) fn one(alloc: Global, entry: Entry) -> Result<Items<Entry>, AllocError>
    ensures { IfOk result (λ entries. entries ≡ entry ∷ []) }
{
    let mut entries = Items::new(alloc);
    entries.push(entry)?;
    Ok(entries)
}

/// The round of bookings that follows a report's entry.
pub(crate) fn book_round(
    alloc: Global,
    walk: &mut Walk,
    host: HostNo,
    moment: u64,
) -> Result<(), AllocError>
    ensures { OnOk result (WalkedOn walk.old (round_for walk.old.farm host moment) walk.new) }
{
    dispatch_lists_each_once();
    let candidates = plan(alloc, &walk.farm, host)?;
    book_in_turn(walk, candidates.as_slice(), moment)
}

// The candidates in turn, until twelve are booked.
fn book_in_turn(walk: &mut Walk, candidates: &[Candidate], moment: u64) -> Result<(), AllocError>
    requires { AreReady walk.old.farm candidates.now }
    ensures { OnOk result (WalkedOn walk.old (round_from BOOKINGS_EACH walk.old.farm moment candidates.now) walk.new) }
{
    let mut left = BOOKINGS_EACH;
    for candidate in candidates {
        left = offer(walk, left, candidate, moment)?;
    }
    Ok(())
}

// Books the candidate where bookings are left and it may be booked, and says how many are left then.
#[tactic(auto, using(crate::proofs::Walked::none_left, crate::proofs::Walked::passed_over, crate::proofs::Walked::was_booked))]
fn offer(walk: &mut Walk, left: u32, candidate: &Candidate, moment: u64) -> Result<u32, AllocError>
    requires { IsReadyToBook walk.old.farm candidate.now }
    ensures { IfOk result (λ left_then. Offered left walk.old candidate.now moment left_then walk.new) }
{
    if left == 0 {
        return Ok(0);
    }
    match walk.farm.recordable(candidate.slot, candidate.host, moment) {
        Ok(booking) => {
            book(walk, candidate, &booking, moment)?;
            Ok(left - 1)
        }
        Err(_) => Ok(left),
    }
}

// Books the candidate.
fn book(
    walk: &mut Walk,
    candidate: &Candidate,
    booking: &Booking,
    moment: u64,
) -> Result<(), AllocError>
    requires asked { IsAsked candidate.now.slot candidate.now.host moment booking.now.booked }
    requires booking { IsBookingOf walk.old.farm booking.now }
    ensures { OnOk result (WalkedOn walk.old (book_entry candidate.now moment ∷ []) walk.new) }
{
    walk.farm.kept();
    legal_runs_keep_farms();
    batches_make_the_rows();
    farms_differ_in_their_stores();
    walk.entries.push(Entry {
        moment,
        act: Act::Book {
            slot: candidate.slot,
            host: candidate.host,
        },
    })?;
    walk.stored.push(!booking.batch().is_empty())?;
    walk.farm.book(booking);
    Ok(())
}
