//! A request of one entry on a copy of the farm.

ghost use Rattle.std.specs.Prelude.{◌≡◌, ◌∷◌, [], None, Some, true};
ghost use Rattle.farm_types.specs.declared.refusal.Refusal.{Refusal};
ghost use Rattle.farm_types.specs.Formed.{IsFormed};
ghost use Rattle.farm_types.specs.declared.entry.Entry.{Entry};
ghost use Rattle.farm_types.specs.Run.{IsLegalStep};
ghost use Rattle.farm_types.specs.Step.{after, refusal_of};
ghost use Rattle.farm_lines.specs.Transcript.{entry_answer, unless_memory};
ghost use Rattle.line_answers.specs.Asking.{IsNoBooking};
ghost use Rattle.world_answers.specs.Acting.{Acts, IsNoReport, recorded_if, trial_by, trial_if};
ghost use Rattle.world_answers.specs.Trials.{Tries};
ghost use Rattle.world_answers.specs.Walking.{IsFirst, Says};

use crate::leaving::leave_act;
use crate::trial::{Further, Trial, TrialFault};
use crate::walking::{First, begin, one};
use farm_types::{Entry, Items};
use line_answers::farm_core::Farm;
use std::alloc::Global;

/// What an entry comes to: the farm, whether it was recorded, whether a row was changed, the reply, and what the refused commit would have made.
#[derive(Drop)]
pub struct Acted {
    pub farm: Farm,
    pub recorded: bool,
    pub stored: bool,
    pub reply: Items<u8>,
    pub further: Option<Further>,
}

/// A request of one entry, which is neither a report nor a booking, on a copy of the farm.
pub(crate) fn try_act(
    alloc: Global,
    farm: &Farm,
    entry: Entry,
    refused: Option<u32>,
) -> Result<Trial, TrialFault>
    requires formed { IsFormed entry }
    requires unbooked { IsNoBooking entry.act }
    requires no_report { IsNoReport entry.act }
    ensures { Tries farm.now (λ mark. unless_memory mark (entry_answer farm.now entry mark (refusal_of farm.now entry))) refused result }
{
    let entries = one(alloc, entry)?;
    let acted = act_on(alloc, farm, first_of(&entries), refused);
    trial_if(alloc, acted, entries)
}

// The entry that is alone there.
fn first_of(entries: &Items<Entry>) -> &Entry
    requires { (entry : Entry) × (entries.now ≡ entry ∷ []) }
    ensures { (entry : Entry) → entries.now ≡ entry ∷ [] → result.now ≡ entry }
{
    &entries.as_slice()[0]
}

// The trial, by what the entry came to, which is alone there.
fn trial_if(
    alloc: Global,
    acted: Result<Acted, TrialFault>,
    entries: Items<Entry>,
) -> Result<Trial, TrialFault>
    ensures { (entry : Entry) → entries ≡ entry ∷ [] → result ≡ trial_if acted entry }
{
    match acted {
        Ok(acted) => Ok(trial_by(alloc, acted, entries)),
        Err(why) => {
            drop(entries);
            Err(why)
        }
    }
}

// The trial, with the entry where it was recorded.
fn trial_by(alloc: Global, acted: Acted, entries: Items<Entry>) -> Trial
    ensures { (entry : Entry) → entries ≡ entry ∷ [] → result ≡ trial_by acted entry }
{
    let entries = recorded_if(alloc, acted.recorded, entries);
    Trial {
        farm: acted.farm,
        entries,
        ends: Items::new(alloc),
        stored: acted.stored,
        reply: acted.reply,
        further: acted.further,
    }
}

// The entry, where it was recorded.
fn recorded_if(alloc: Global, recorded: bool, entries: Items<Entry>) -> Items<Entry>
    ensures { (entry : Entry) → entries ≡ entry ∷ [] → result ≡ recorded_if recorded entry }
{
    if recorded {
        return entries;
    }
    drop(entries);
    Items::new(alloc)
}

// What the entry comes to.
fn act_on(
    alloc: Global,
    farm: &Farm,
    entry: &Entry,
    refused: Option<u32>,
) -> Result<Acted, TrialFault>
    requires formed { IsFormed entry.now }
    requires unbooked { IsNoBooking entry.now.act }
    ensures { Acts farm.now entry.now refused result }
{
    match begin(alloc, farm, entry)? {
        None => refused_act(alloc, farm, entry, refused),
        Some(first) => taken_act(alloc, farm, entry, first, refused),
    }
}

// The farm refuses the entry.
fn refused_act(
    alloc: Global,
    farm: &Farm,
    entry: &Entry,
    refused: Option<u32>,
) -> Result<Acted, TrialFault>
    requires formed { IsFormed entry.now }
    requires unbooked { IsNoBooking entry.now.act }
    requires refuses { (why : Refusal) × (refusal_of farm.now entry.now ≡ Some why) }
    ensures { Acts farm.now entry.now refused result }
{
    if refused.is_some() {
        return Err(TrialFault::NoSuch);
    }
    let left = leave_act(alloc, farm, entry, None)?;
    Ok(Acted {
        farm: left.farm,
        recorded: false,
        stored: false,
        reply: left.reply,
        further: None,
    })
}

// The farm takes the entry.
fn taken_act(
    alloc: Global,
    farm: &Farm,
    entry: &Entry,
    first: First,
    refused: Option<u32>,
) -> Result<Acted, TrialFault>
    requires formed { IsFormed entry.now }
    requires unbooked { IsNoBooking entry.now.act }
    requires first { IsFirst farm.now entry.now first }
    ensures { Acts farm.now entry.now refused result }
{
    match refused {
        None => {
            let stored = first.stored;
            drop(first);
            recorded_act(alloc, farm, entry, stored)
        }
        Some(number) => unstored_act(alloc, farm, entry, first, number),
    }
}

// It is recorded, and changes a row or doesn't.
fn recorded_act(
    alloc: Global,
    farm: &Farm,
    entry: &Entry,
    stored: bool,
) -> Result<Acted, TrialFault>
    requires formed { IsFormed entry.now }
    requires unbooked { IsNoBooking entry.now.act }
    requires legal { IsLegalStep farm.now entry.now }
    requires said { Says stored farm.now (after farm.now entry.now) }
    ensures { Acts farm.now entry.now None result }
{
    let left = leave_act(alloc, farm, entry, None)?;
    Ok(Acted {
        farm: left.farm,
        recorded: true,
        stored,
        reply: left.reply,
        further: None,
    })
}

// The store refuses its commit, if that is its number and there is one.
#[tactic(auto, using(crate::proofs::OneEntry::no_such, crate::proofs::OneEntry::no_such_later))]
fn unstored_act(
    alloc: Global,
    farm: &Farm,
    entry: &Entry,
    first: First,
    number: u32,
) -> Result<Acted, TrialFault>
    requires formed { IsFormed entry.now }
    requires unbooked { IsNoBooking entry.now.act }
    requires first { IsFirst farm.now entry.now first }
    ensures { Acts farm.now entry.now (Some number) result }
{
    if number != 0 {
        drop(first);
        return Err(TrialFault::NoSuch);
    }
    if !first.stored {
        drop(first);
        return Err(TrialFault::NoSuch);
    }
    stopped_act(alloc, farm, entry, first, number)
}

// The store refuses its commit.
fn stopped_act(
    alloc: Global,
    farm: &Farm,
    entry: &Entry,
    first: First,
    number: u32,
) -> Result<Acted, TrialFault>
    requires formed { IsFormed entry.now }
    requires unbooked { IsNoBooking entry.now.act }
    requires first { IsFirst farm.now entry.now first }
    requires changes { first.stored ≡ true }
    requires at { number ≡ 0 }
    ensures { Acts farm.now entry.now (Some number) result }
{
    match leave_act(alloc, farm, entry, Some(number)) {
        Ok(left) => Ok(Acted {
            farm: left.farm,
            recorded: false,
            stored: false,
            reply: left.reply,
            further: Some(Further {
                farm: first.farm,
                ends: Items::new(alloc),
            }),
        }),
        Err(_) => {
            drop(first);
            Err(TrialFault::NoMemory)
        }
    }
}
