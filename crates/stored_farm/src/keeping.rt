//! Rows of depends and marks: whether they fit, and what is kept of them.

ghost use Rattle.std.specs.Prelude.{◌≡◌, ◌&&◌, None, true, IfOk, OnOk};
ghost use Rattle.farm_rows.specs.Recovery.{comes_after, end_fault, key_of};
ghost use Rattle.farm_rows.specs.declared.farm_row.FarmRow.TheVariants as row;
ghost use Rattle.stored_farm.specs.Judged.{takes_depend, takes_mark};
ghost use Rattle.stored_farm.specs.Kept.{groups_kept};
ghost use Rattle.stored_rows.specs.Told.{early_fault, told_with};

use crate::ends::{first_stuck, first_wrong, unmet_flags};
use crate::groups::groups_kept;
use crate::judging::{depend_fits, is_recorded, mark_fits};
use crate::marks::id_of;
use crate::stored_farm::StoredFarm;
use farm_types::{DependRow, Group, Items, MetRow};
use std::alloc::{AllocError, Global};

impl StoredFarm {
    // The groups of a depend that isn't satisfied.
    pub(crate) fn groups_of(
        &self,
        alloc: Global,
        depend: &DependRow,
    ) -> Result<Items<Group>, AllocError>
        ensures { IfOk result (λ groups. groups ≡ groups_kept self.now.farm depend.now) }
    {
        let groups = groups_kept(alloc, &self.rows, depend)?;
        Ok(groups)
    }

    // Whether a depend of these groups fits.
    pub(crate) fn depend_fits(
        &self,
        alloc: Global,
        depend: &DependRow,
        groups: &[Group],
    ) -> Result<bool, AllocError>
        requires { groups.now ≡ groups_kept self.now.farm depend.now }
        ensures { IfOk result (λ fits. fits ≡ takes_depend self.now.farm depend.now) }
    {
        self.rows.kept();
        let depends = self.depends.as_slice();
        let count = depends.len();
        let fits = depend_fits(alloc, &self.rows, count, self.left, depend, groups)?;
        Ok(fits)
    }

    // Keeps a depend that fits.
    pub(crate) fn keep_depend(
        &mut self,
        depend: DependRow,
        groups: Items<Group>,
    ) -> Result<(), AllocError>
        requires next { comes_after self.old.last (9, depend.depend) ≡ true }
        requires groups { groups ≡ groups_kept self.old.farm depend }
        requires fits { takes_depend self.old.farm depend ≡ true }
        ensures { OnOk result (self.new ≡ told_with self.old (row.Depend depend)) }
    {
        self.rows.kept();
        let number = number_of(&depend);
        self.depends.reserve(1)?;
        self.groups.reserve(1)?;
        self.last = Some((9, number));
        self.left += groups.len() as u32;
        self.depends.push_reserved(depend);
        self.groups.push_reserved(groups);
        Ok(())
    }

    // Whether the mark fits.
    pub(crate) fn mark_fits(&self, mark: &MetRow) -> bool
        ensures { result ≡ takes_mark self.now.farm mark.now }
    {
        self.rows.kept();
        let depends = self.depends.as_slice();
        let groups = self.groups.as_slice();
        let fits = mark_fits(depends, groups, mark);
        both(is_recorded(&self.rows), fits)
    }

    // Keeps a mark that fits.
    pub(crate) fn keep_mark(&mut self, mark: MetRow) -> Result<(), AllocError>
        requires next { comes_after self.old.last (key_of (row.Met mark)) ≡ true }
        requires fits { takes_mark self.old.farm mark ≡ true }
        ensures { OnOk result (self.new ≡ told_with self.old (row.Met mark)) }
    {
        self.rows.kept();
        let id = id_of(&mark);
        self.met.push(mark)?;
        self.last = Some((10, id));
        Ok(())
    }

    // The fault of the depends, of a farm whose other rows have none.
    pub(crate) fn depend_fault(&self, alloc: Global) -> Result<Option<(u8, u64)>, AllocError>
        requires { early_fault self.now.farm ≡ None }
        ensures { IfOk result (λ fault. fault ≡ end_fault self.now.farm) }
    {
        let met = self.met.as_slice();
        let depends = self.depends.as_slice();
        let groups = self.groups.as_slice();
        let slots = self.rows.lists().slots.as_slice();
        let wrong = first_wrong(met, slots, depends, groups);
        if wrong.is_some() {
            return Ok(wrong);
        }
        let flags = unmet_flags(alloc, slots.len(), met, depends, groups)?;
        Ok(first_stuck(flags.as_slice(), slots))
    }
}

// Whether both are so.
fn both(first: bool, second: bool) -> bool
    ensures { result ≡ (first && second) }
{
    first && second
}

// The depend's number.
fn number_of(depend: &DependRow) -> u64
    ensures { result ≡ depend.now.depend }
{
    u64::from(depend.depend.0)
}
