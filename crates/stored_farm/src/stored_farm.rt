//! The farm that the rows so far say.

ghost use Rattle.std.specs.Prelude.{◌≡◌, ◌≤◌, true, IfOk};
ghost use Rattle.farm_rows.specs.Recovery.{IsFormat, comes_after, end_fault, key_of};
ghost use Rattle.farm_rows.specs.Rows.{row_kind};
ghost use Rattle.farm_rows.specs.declared.farm_row.FarmRow.TheVariants as row;
ghost use Rattle.stored_farm.specs.Kept.{whole_of};
ghost use Rattle.stored_rows.specs.Told.{Accepts, none_told};

use crate::order::comes_after;
use farm_rows::{BookLists, FarmRow};
use farm_types::{DependRow, Group, Items, LimitNo, LimitRow, MetRow};
use std::alloc::{AllocError, Global};
use std::marker::Model;
use stored_rows::StoredRows;

/// The farm that the rows so far say, the key of the last one, and the format of them, which contracts see as plain lists (`Told` of `stored_rows`).
#[derive(Drop)]
pub struct StoredFarm {
    pub(crate) rows: StoredRows,
    pub(crate) last: Option<(u8, u64)>,
    pub(crate) depends: Vec<DependRow>,
    // The groups of each depend that isn't satisfied, and how many they are together.
    pub(crate) groups: Vec<Items<Group>>,
    pub(crate) left: u32,
    pub(crate) met: Vec<MetRow>,
}

impl Model for StoredFarm {
    ghost use Rattle.stored_rows.specs.Told.{Told};
    ghost use Rattle.stored_farm.specs.Kept.{KeepsDepends, with_depends};

    ghost Value = { Told };

    ghost view = { λ a. record { last = a.last; farm = with_depends a.rows.farm a.depends.items a.met.items; format = a.rows.format } };

    ghost invariant = { λ a. KeepsDepends a.rows a.last a.depends.items a.groups.items a.met.items a.left };
}

impl StoredFarm {
    /// Before the first row. It takes the memory of all slots.
    pub fn make(alloc: Global) -> Result<StoredFarm, AllocError>
        ensures { IfOk result (λ farm. farm ≡ none_told) }
    {
        Ok(StoredFarm {
            rows: StoredRows::make(alloc)?,
            last: None,
            depends: Vec::new(alloc),
            groups: Vec::new(alloc),
            left: 0,
            met: Vec::new(alloc),
        })
    }

    /// Takes a row, where it comes after the last one and fits the farm so far, and says whether it does. At an `Err` nothing is known of the farm any more.
    pub fn add(&mut self, alloc: Global, row: FarmRow) -> Result<bool, AllocError>
        ensures { IfOk result (λ taken. Accepts taken self.old row self.new) }
    {
        if !self.is_next(&row) {
            return Ok(false);
        }
        self.add_next(alloc, row)
    }

    /// The kind and the id of the last row.
    pub fn last(&self) -> Option<(u8, u64)>
        ensures { result ≡ self.now.last }
    {
        self.last
    }

    /// The format of the rows so far.
    pub fn format(&self) -> u64
        ensures value { result ≡ self.now.format }
        ensures known { IsFormat result }
    {
        self.rows.format()
    }

    /// The kind and the id of the first row at fault, where the last row was the last one of all.
    pub fn end_fault(&self, alloc: Global) -> Result<Option<(u8, u64)>, AllocError>
        ensures { IfOk result (λ fault. fault ≡ end_fault self.now.farm) }
    {
        let early = self.rows.end_fault();
        if early.is_some() {
            return Ok(early);
        }
        self.depend_fault(alloc)
    }

    /// The farm's lists, with no copy, its depends and marks, and the next number of a depend.
    pub fn into_lists(self) -> (BookLists, Vec<DependRow>, Vec<MetRow>, u64)
        ensures { whole_of result.0 result.1.items result.2.items result.3 ≡ self.farm }
    {
        let StoredFarm {
            rows,
            last: _last,
            depends,
            groups: _groups,
            left: _left,
            met,
        } = self;
        let (lists, next_depend) = rows.into_lists();
        (lists, depends, met, next_depend)
    }

    // Whether the row comes after the last one.
    fn is_next(&self, row: &FarmRow) -> bool
        ensures { result ≡ comes_after self.now.last (key_of row.now) }
    {
        comes_after(self.last, (row.kind(), row.id()))
    }

    // Takes a row that comes after the last one, where it fits the farm so far.
    fn add_next(&mut self, alloc: Global, row: FarmRow) -> Result<bool, AllocError>
        requires { comes_after self.old.last (key_of row) ≡ true }
        ensures { IfOk result (λ taken. Accepts taken self.old row self.new) }
    {
        match row {
            FarmRow::Depend(depend) => self.add_depend(alloc, depend),
            FarmRow::Met(mark) => self.add_mark(mark),
            FarmRow::Limit { limit, row: told } => self.add_limit(alloc, limit, told),
            early => self.add_early(alloc, early),
        }
    }

    // Takes a row of a kind before those of depends.
    fn add_early(&mut self, alloc: Global, row: FarmRow) -> Result<bool, AllocError>
        requires early { row_kind row ≤ 8 }
        requires next { comes_after self.old.last (key_of row) ≡ true }
        ensures { IfOk result (λ taken. Accepts taken self.old row self.new) }
    {
        let key = (row.kind(), row.id());
        let last = self.last;
        // Where memory runs out, no row comes after.
        self.last = Some((12, 0));
        let taken = self.rows.add(alloc, row)?;
        self.last = if taken { Some(key) } else { last };
        Ok(taken)
    }

    // Takes a limit.
    fn add_limit(
        &mut self,
        alloc: Global,
        limit: LimitNo,
        told: LimitRow,
    ) -> Result<bool, AllocError>
        requires { comes_after self.old.last (key_of (row.Limit limit told)) ≡ true }
        ensures { IfOk result (λ taken. Accepts taken self.old (row.Limit limit told) self.new) }
    {
        if !self.rows.add_limit(alloc, limit, told)? {
            return Ok(false);
        }
        self.last = Some((11, u64::from(limit.0)));
        Ok(true)
    }

    // Takes a depend.
    fn add_depend(&mut self, alloc: Global, depend: DependRow) -> Result<bool, AllocError>
        requires { comes_after self.old.last (9, depend.depend) ≡ true }
        ensures { IfOk result (λ taken. Accepts taken self.old (row.Depend depend) self.new) }
    {
        let groups = self.groups_of(alloc, &depend)?;
        let fits = self.depend_fits(alloc, &depend, groups.as_slice())?;
        if fits {
            self.keep_depend(depend, groups)?;
        }
        Ok(fits)
    }

    // Takes the mark of a met group.
    fn add_mark(&mut self, mark: MetRow) -> Result<bool, AllocError>
        requires { comes_after self.old.last (key_of (row.Met mark)) ≡ true }
        ensures { IfOk result (λ taken. Accepts taken self.old (row.Met mark) self.new) }
    {
        let fits = self.mark_fits(&mark);
        if fits {
            self.keep_mark(mark)?;
        }
        Ok(fits)
    }
}
