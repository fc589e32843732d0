//! The farm that the rows so far say.

ghost use Rattle.std.specs.Prelude.{◌≡◌, ◌≤◌, true, None, IfOk};
ghost use Rattle.std.specs.Vec.{vec_capacity};
ghost use Rattle.farm_types.specs.Farm.{empty_farm};
ghost use Rattle.farm_types.specs.declared.limits.TheConstants.{SLOT_LIMIT};
ghost use Rattle.farm_rows.specs.Lists.{farm_in};
ghost use Rattle.farm_rows.specs.Recovery.{comes_after, key_of};
ghost use Rattle.farm_rows.specs.Rows.{row_kind};
ghost use Rattle.stored_rows.specs.Told.{Accepts, farm_of, none_told};

use farm_rows::{BookLists, FarmRow, ROW_FORMAT};
use farm_types::SLOT_LIMIT;
use row_index::{KnownHosts, KnownJobs, KnownLayer, Names};
use std::alloc::{AllocError, Global};
use std::marker::Model;

/// The farm that the rows so far say, the key of the last one, and the format of them. Clauses see the farm as plain lists, without depends.
#[derive(Drop)]
pub struct StoredRows {
    pub(crate) lists: BookLists,
    pub(crate) next_depend: u64,
    pub(crate) last: Option<(u8, u64)>,
    pub(crate) format: u64,
    // The limits' names.
    pub(crate) limits: Names,
    pub(crate) hosts: KnownHosts,
    pub(crate) jobs: KnownJobs,
    pub(crate) layers: Vec<KnownLayer>,
}

impl Model for StoredRows {
    ghost use Rattle.stored_rows.specs.Told.{Told};

    ghost Value = { Told };

    ghost use Rattle.stored_rows.specs.Inside.{KnowsStored, told_of};

    ghost view = { told_of };

    ghost invariant = { KnowsStored };
}

impl StoredRows {
    /// Before the first row. It takes the memory of all slots.
    pub fn make(alloc: Global) -> Result<StoredRows, AllocError>
        ensures { IfOk result (λ rows. rows ≡ none_told) }
    {
        Ok(StoredRows {
            lists: no_lists(alloc)?,
            next_depend: 1,
            last: None,
            format: ROW_FORMAT,
            limits: Names::new(alloc),
            hosts: KnownHosts::new(alloc),
            jobs: KnownJobs::new(alloc),
            layers: Vec::new(alloc),
        })
    }

    /// Takes a row of kind 1 to 8, where it comes after the last one and fits the farm so far, and says whether it does. At an `Err` nothing is known
    /// of the farm any more.
    pub fn add(&mut self, alloc: Global, row: FarmRow) -> Result<bool, AllocError>
        requires early { row_kind row ≤ 8 }
        ensures { IfOk result (λ taken. Accepts taken self.old row self.new) }
    {
        if !self.comes_after(row.kind(), row.id()) {
            return Ok(false);
        }
        self.take(alloc, row)
    }

    // Takes a row that comes after the last one, where it fits.
    fn take(&mut self, alloc: Global, row: FarmRow) -> Result<bool, AllocError>
        requires early { row_kind row ≤ 8 }
        requires after { comes_after self.old.last (key_of row) ≡ true }
        ensures { IfOk result (λ taken. Accepts taken self.old row self.new) }
    {
        match row {
            FarmRow::Head(head) => Ok(self.add_head(&head)),
            FarmRow::Show { show, row: told } => self.add_show(show, told),
            FarmRow::Alloc {
                alloc: number,
                row: told,
            } => self.add_alloc(alloc, number, told),
            FarmRow::Sub(told) => self.add_sub(&told),
            FarmRow::Host { host, row: told } => self.add_host(alloc, host, told),
            FarmRow::Job(told) => self.add_job(alloc, told),
            FarmRow::Layer(told) => self.add_layer(alloc, told),
            FarmRow::Frame(told) => Ok(self.add_frame(&told)),
            FarmRow::Depend(_) => unreachable!(),
            FarmRow::Met(_) => unreachable!(),
            FarmRow::Limit { .. } => unreachable!(),
        }
    }

    /// Whether a row of that kind and id comes after the last one.
    pub(crate) fn comes_after(&self, kind: u8, id: u64) -> bool
        ensures { result ≡ comes_after self.now.last (kind, id) }
    {
        match self.last {
            None => true,
            Some((last, last_id)) => last < kind || (last == kind && last_id < id),
        }
    }

    /// The kind and the id of the last row.
    pub fn last(&self) -> Option<(u8, u64)>
        ensures { result ≡ self.now.last }
    {
        self.last
    }

    /// The farm's lists.
    pub fn lists(&self) -> &BookLists
        ensures { farm_of result.now self.now.farm.next_depend ≡ self.now.farm }
    {
        &self.lists
    }

    /// The farm's lists, with no copy, and the next number of a depend.
    pub fn into_lists(self) -> (BookLists, u64)
        ensures { farm_of result.0 result.1 ≡ self.farm }
    {
        let StoredRows {
            lists,
            next_depend,
            ..
        } = self;
        (lists, next_depend)
    }
}

// No rows, with room for all slots.
fn no_lists(alloc: Global) -> Result<BookLists, AllocError>
    ensures none { IfOk result (λ lists. farm_in lists ≡ empty_farm) }
    ensures room { IfOk result (λ lists. SLOT_LIMIT ≤ vec_capacity lists.slots) }
{
    Ok(BookLists {
        shows: Vec::new(alloc),
        allocs: Vec::new(alloc),
        subs: Vec::new(alloc),
        limits: Vec::new(alloc),
        hosts: Vec::new(alloc),
        jobs: Vec::new(alloc),
        layers: Vec::new(alloc),
        slots: Vec::with_capacity(alloc, SLOT_LIMIT as usize)?,
        next_job: 1,
        next_finish: 1,
        moment: 0,
        recorded: false,
    })
}
