//! A scheduler that starts again.

ghost use Rattle.std.specs.Prelude.{◌≡◌, ◌∷◌, [], IfOk, None, OnOk, Some, option_copied, slice_get};
ghost use Rattle.farm_types.specs.Formed.{IsFormed};
ghost use Rattle.farm_types.specs.Step.{after};
ghost use Rattle.farm_types.specs.declared.entry.Act.TheVariants as acts;
ghost use Rattle.world_law.specs.declared.event.Event.TheVariants as events;
ghost use Rattle.world_law.specs.Happens.{opened_entry};
ghost use Rattle.world_core.specs.Restarting.{IsStart, begun};
ghost use Rattle.world_core.specs.Stepping.{Comes};

use crate::history::History;
use crate::parts::Parts;
use farm_types::{Act, Entry, FarmFault, Items};
use line_answers::farm_core::Farm;
use std::alloc::{AllocError, Global};
use world_answers::commit;
use world_law::WorldFault;

/// A start of the scheduler: the farm before its entry Opened, the history after it, and that entry.
#[derive(Drop)]
pub struct Start {
    pub opened: Farm,
    pub now: History,
    pub entries: Items<Entry>,
}

impl Parts {
    // The scheduler starts again: at its farm, or at the farm of that number among those that one refused commit would
    // have made.
    pub(crate) fn restart(
        &mut self,
        alloc: Global,
        further: Option<u32>,
        moment: u64,
    ) -> Result<(), WorldFault>
        ensures { Comes self.old (events.Restart further moment) result self.new }
    {
        match further {
            None => self.restart_now(alloc, moment),
            Some(place) => self.restart_at(alloc, place, moment),
        }
    }

    // At its farm.
    fn restart_now(&mut self, alloc: Global, moment: u64) -> Result<(), WorldFault>
        ensures { Comes self.old (events.Restart None moment) result self.new }
    {
        match start_with(alloc, &self.now, moment) {
            Ok(started) => {
                self.begin(alloc, started);
                Ok(())
            }
            Err(_) => Err(WorldFault::NoMemory),
        }
    }

    // At the farm of that number.
    fn restart_at(&mut self, alloc: Global, place: u32, moment: u64) -> Result<(), WorldFault>
        ensures { Comes self.old (events.Restart (Some place) moment) result self.new }
    {
        let Some(history) = history_at(self.further.as_slice(), place) else {
            return Err(WorldFault::NoSuch);
        };
        match start_with(alloc, history, moment) {
            Ok(started) => {
                self.begin(alloc, started);
                Ok(())
            }
            Err(_) => Err(WorldFault::NoMemory),
        }
    }

    // The scheduler has started.
    fn begin(&mut self, alloc: Global, started: Start)
        ensures { self.new ≡ begun self.old started }
    {
        let Start {
            opened,
            now,
            entries,
        } = started;
        self.now = now;
        self.further = Vec::new(alloc);
        self.opened = opened;
        self.entries = entries;
    }
}

// The history of that number.
fn history_at(further: &[History], place: u32) -> Option<&History>
    ensures { option_copied result ≡ slice_get further.now place }
{
    further.get(place as usize)
}

// The scheduler starts with the farm of a history.
fn start_with(alloc: Global, history: &History, moment: u64) -> Result<Start, AllocError>
    ensures { IfOk result (IsStart history.now moment) }
{
    let entries = opened_entries(alloc, moment)?;
    let opened = history.farm.copy(alloc)?;
    match opened_history(alloc, history, moment) {
        Ok(now) => Ok(Start {
            opened,
            now,
            entries,
        }),
        Err(_) => {
            drop(opened);
            Err(AllocError)
        }
    }
}

// A copy of the history, of which the scheduler was opened.
fn opened_history(alloc: Global, history: &History, moment: u64) -> Result<History, AllocError>
    ensures { IfOk result (λ now. now ≡ record history.now { farm = after history.now.farm (opened_entry moment) }) }
{
    let counted = history.counted.copy(alloc)?;
    let farm = opened_farm(alloc, &history.farm, moment)?;
    Ok(History { farm, counted })
}

// A copy of the farm, opened.
fn opened_farm(alloc: Global, farm: &Farm, moment: u64) -> Result<Farm, AllocError>
    ensures { IfOk result (λ opened. opened ≡ after farm.now (opened_entry moment)) }
{
    let mut copy = farm.copy(alloc)?;
    open_farm(alloc, &mut copy, moment)?;
    Ok(copy)
}

// The entry of a start, alone.
fn opened_entries(alloc: Global, moment: u64) -> Result<Items<Entry>, AllocError>
    ensures { IfOk result (λ entries. entries ≡ opened_entry moment ∷ []) }
{
    let mut entries = Items::new(alloc);
    entries.push(opened_entry(moment))?;
    Ok(entries)
}

fn opened_entry(moment: u64) -> Entry
    ensures { result ≡ opened_entry moment }
{
    Entry {
        moment,
        act: Act::Opened,
    }
}

// The scheduler was opened.
fn open_farm(alloc: Global, farm: &mut Farm, moment: u64) -> Result<(), AllocError>
    ensures { OnOk result (farm.new ≡ after farm.old (opened_entry moment)) }
{
    let entry = opened_entry(moment);
    open_by(alloc, farm, &entry)
}

// The scheduler was opened, which no farm refuses.
fn open_by(alloc: Global, farm: &mut Farm, entry: &Entry) -> Result<(), AllocError>
    requires opened { entry.now.act ≡ acts.Opened }
    requires formed { IsFormed entry.now }
    ensures { OnOk result (farm.new ≡ after farm.old entry.now) }
{
    match commit(alloc, farm, entry) {
        Ok(()) => Ok(()),
        Err(FarmFault::Refused { .. }) => unreachable!(),
        Err(FarmFault::NoMemory) => Err(AllocError),
    }
}
