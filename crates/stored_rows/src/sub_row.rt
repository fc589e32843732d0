//! Rows of subscriptions.

ghost use Rattle.std.specs.Prelude.{◌≡◌, true, IfOk, OnOk};
ghost use Rattle.farm_types.specs.Kept.{is_kept_sub};
ghost use Rattle.farm_rows.specs.declared.farm_row.FarmRow.TheVariants as kind;
ghost use Rattle.farm_rows.specs.Recovery.{comes_after, key_of, sub_fits};
ghost use Rattle.stored_rows.specs.Told.{Accepts, told_with};

use crate::stored_rows::StoredRows;
use farm_types::{MOST_ALLOCS, MOST_BURST, SubRow};
use std::alloc::AllocError;

impl StoredRows {
    /// Takes the row of a subscription.
    pub(crate) fn add_sub(&mut self, row: &SubRow) -> Result<bool, AllocError>
        requires after { comes_after self.old.last (key_of (kind.Sub row.now)) ≡ true }
        ensures { IfOk result (λ taken. Accepts taken self.old (kind.Sub row.now) self.new) }
    {
        if !(self.lists.recorded && self.sub_fits(row)) {
            return Ok(false);
        }
        self.push_sub(row)?;
        Ok(true)
    }

    // Whether it fits.
    fn sub_fits(&self, row: &SubRow) -> bool
        ensures { result ≡ sub_fits self.now.farm row.now }
    {
        is_sub(self.lists.shows.len(), self.lists.allocs.len(), row)
    }

    // It is the last of the subscriptions.
    fn push_sub(&mut self, row: &SubRow) -> Result<(), AllocError>
        requires after { comes_after self.old.last (key_of (kind.Sub row.now)) ≡ true }
        requires fits { sub_fits self.old.farm row.now ≡ true }
        ensures { OnOk result (self.new ≡ told_with self.old (kind.Sub row.now)) }
    {
        let id = id_of(row);
        self.lists.subs.push(*row)?;
        self.last = Some((4, id));
        Ok(())
    }
}

// The row's id.
fn id_of(row: &SubRow) -> u64
    ensures { result ≡ row.now.sub }
{
    u64::from(row.sub.0)
}

// Whether it is a subscription of one of so many shows and allocations.
fn is_sub(shows: usize, allocs: usize, row: &SubRow) -> bool
    ensures { result ≡ is_kept_sub shows allocs row.now }
{
    let sub = u32::from(row.sub.0);
    ((sub / MOST_ALLOCS) as usize) < shows
        && (((sub % MOST_ALLOCS) as usize) < allocs
            && (row.size.0 <= MOST_BURST && row.burst.0 <= MOST_BURST))
}
