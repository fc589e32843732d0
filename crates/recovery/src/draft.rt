//! A farm that is made of rows, one by one.

ghost use Rattle.std.specs.Prelude.{◌≡◌, [], None, true, IfOk};
ghost use Rattle.farm_rows.specs.Recovery.{IsFormat, end_fault};
ghost use Rattle.recovery.specs.Drafts.{IsAdded, IsFinished, IsReached, IsSaid, LeadsOn, LeadsTo};
ghost use Rattle.stored_rows.specs.Told.{Accepts, none_told};

use crate::fault::DraftFault;
use farm_core::Farm;
use farm_rows::FarmRow;
use std::alloc::{AllocError, Global};
use std::marker::Model;
use stored_farm::StoredFarm;

/// The rows so far of a farm, in order, which contracts see as the key of the last one, the farm that they say and their format (`Told` of
/// `stored_rows`).
#[derive(Drop)]
pub struct FarmDraft {
    farm: StoredFarm,
    // Whether each row was taken or left: no call ran out of memory.
    intact: bool,
}

impl Model for FarmDraft {
    ghost use Rattle.std.specs.Prelude.{◌≡◌, true};
    ghost use Rattle.recovery.specs.Drafts.{IsReached};
    ghost use Rattle.stored_rows.specs.Told.{Told};

    ghost Value = { Told };

    ghost view = { λ a. a.farm };

    ghost invariant = { λ a. a.intact ≡ true → IsReached a.farm };
}

impl FarmDraft {
    /// No rows. It takes the memory of all slots.
    pub fn make(alloc: Global) -> Result<FarmDraft, AllocError>
        ensures none { IfOk result (λ draft. draft ≡ none_told) }
        ensures first { IfOk result (λ draft. LeadsTo [] draft) }
    {
        Ok(FarmDraft {
            farm: StoredFarm::make(alloc)?,
            intact: true,
        })
    }

    /// Adds a row, or answers that it breaks the farm, with its kind and id: it doesn't come after the last one, or doesn't fit those before it. Then nothing
    /// has changed. Once memory ran out, nothing is known of the draft any more.
    pub fn add(&mut self, alloc: Global, row: FarmRow) -> Result<(), DraftFault>
        ensures added { IsAdded self.old row self.new result }
        // So whatever comes after a row that breaks the farm, that row is the one at fault.
        ensures leads_on { LeadsOn self.old row self.new result }
    {
        self.add_row(alloc, row)
    }

    /// The kind and the id of the last row.
    pub fn last(&self) -> Option<(u8, u64)>
        ensures { result ≡ self.now.last }
    {
        self.farm.last()
    }

    /// The format of the rows so far, that in which rows are written where there are none.
    pub fn format(&self) -> u64
        ensures value { result ≡ self.now.format }
        ensures known { IsFormat result }
    {
        self.farm.format()
    }

    /// The farm of the rows, or the kind and the id of the first row at fault, now that all are there. Where a call ran out of memory before, so does this one.
    pub fn finish(self, alloc: Global) -> Result<Farm, DraftFault>
        ensures finished { IsFinished self result }
        // So this is what the rows that were added say.
        ensures said { IsSaid self result }
    {
        self.end(alloc)
    }
}

impl FarmDraft {
    // Adds a row, or names it.
    fn add_row(&mut self, alloc: Global, row: FarmRow) -> Result<(), DraftFault>
        ensures { IsAdded self.old row self.new result }
    {
        let kind = row.kind();
        let id = row.id();
        if self.take(alloc, row)? {
            Ok(())
        } else {
            Err(DraftFault::Breaks { kind, id })
        }
    }

    // The farm of the rows, or the row at fault.
    fn end(self, alloc: Global) -> Result<Farm, DraftFault>
        ensures { IsFinished self result }
    {
        if !self.is_intact() {
            return Err(DraftFault::NoMemory);
        }
        let fault = self.end_fault(alloc)?;
        if let Some((kind, id)) = fault {
            return Err(DraftFault::Breaks { kind, id });
        }
        Ok(self.whole(alloc)?)
    }

    // Adds a row where it comes after the last one and fits, and says whether it does.
    fn take(&mut self, alloc: Global, row: FarmRow) -> Result<bool, AllocError>
        ensures { IfOk result (λ taken. Accepts taken self.old row self.new) }
    {
        let intact = self.intact;
        self.intact = false;
        let taken = self.farm.add(alloc, row)?;
        self.intact = intact;
        Ok(taken)
    }

    // Whether no call ran out of memory.
    fn is_intact(&self) -> bool
        ensures { result ≡ true → IsReached self.now }
    {
        self.intact
    }

    // The kind and the id of the first row at fault, now that all are there.
    fn end_fault(&self, alloc: Global) -> Result<Option<(u8, u64)>, AllocError>
        ensures { IfOk result (λ fault. fault ≡ end_fault self.now.farm) }
    {
        self.farm.end_fault(alloc)
    }

    // The farm of the rows, none of which is at fault.
    fn whole(self, alloc: Global) -> Result<Farm, AllocError>
        requires reached { IsReached self }
        requires fine { end_fault self.farm ≡ None }
        ensures { IfOk result (λ farm. farm ≡ self.farm) }
    {
        recovery_law::farms_said_are_kept();
        let FarmDraft {
            farm,
            intact: _intact,
        } = self;
        let (lists, depends, met, next_depend) = farm.into_lists();
        Farm::of_lists(alloc, lists, depends, met, next_depend)
    }
}
