//! Rows of shows.

ghost use Rattle.std.specs.Prelude.{◌≡◌, true, IfOk, OnOk, bytes_eq};
ghost use Rattle.std.specs.List.{list_any};
ghost use Rattle.farm_types.specs.Kept.{show_label};
ghost use Rattle.farm_rows.specs.declared.farm_row.FarmRow.TheVariants as kind;
ghost use Rattle.farm_rows.specs.Recovery.{comes_after, key_of, show_fits};
ghost use Rattle.stored_rows.specs.Told.{Accepts, told_with};

use crate::forms::is_formed_show;
use crate::stored_rows::StoredRows;
use farm_types::{MOST_SHOWS, ShowNo, ShowRow, Text};
use std::alloc::AllocError;

impl StoredRows {
    /// Takes the row of a show.
    pub(crate) fn add_show(&mut self, show: ShowNo, row: ShowRow) -> Result<bool, AllocError>
        requires after { comes_after self.old.last (key_of (kind.Show show row)) ≡ true }
        ensures { IfOk result (λ taken. Accepts taken self.old (kind.Show show row) self.new) }
    {
        if !(self.lists.recorded && self.show_fits(show, &row)) {
            return Ok(false);
        }
        self.push_show(show, row)?;
        Ok(true)
    }

    // Whether it fits.
    fn show_fits(&self, show: ShowNo, row: &ShowRow) -> bool
        ensures { result ≡ show_fits self.now.farm show row.now }
    {
        show.0 as usize == self.lists.shows.len()
            && (u32::from(show.0) < MOST_SHOWS
                && (is_formed_show(row) && !has_show(self.lists.shows.as_slice(), &row.name)))
    }

    // It is the last of the shows.
    fn push_show(&mut self, show: ShowNo, row: ShowRow) -> Result<(), AllocError>
        requires after { comes_after self.old.last (key_of (kind.Show show row)) ≡ true }
        requires fits { show_fits self.old.farm show row ≡ true }
        ensures { OnOk result (self.new ≡ told_with self.old (kind.Show show row)) }
    {
        self.lists.shows.push(row)?;
        self.last = Some((2, u64::from(show.0)));
        Ok(())
    }
}

// Whether a show has the name.
fn has_show(shows: &[ShowRow], name: &Text) -> bool
    ensures { result ≡ list_any (λ show. bytes_eq (show_label show) name.now) shows.now }
{
    shows.iter().any(|show| show.name.is(name.as_str()))
}
