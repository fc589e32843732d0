//! Rows of allocations.

ghost use Rattle.std.specs.Prelude.{◌≡◌, true, IfOk, OnOk, bytes_eq};
ghost use Rattle.std.specs.List.{list_any};
ghost use Rattle.farm_types.specs.Kept.{alloc_label};
ghost use Rattle.farm_rows.specs.declared.farm_row.FarmRow.TheVariants as kind;
ghost use Rattle.farm_rows.specs.Recovery.{alloc_fits, comes_after, key_of};
ghost use Rattle.stored_rows.specs.Told.{Accepts, told_with};

use crate::forms::is_formed_alloc;
use crate::stored_rows::StoredRows;
use farm_types::{AllocNo, AllocRow, MOST_ALLOCS, Text};
use std::alloc::{AllocError, Global};

impl StoredRows {
    /// Takes the row of an allocation.
    pub(crate) fn add_alloc(
        &mut self,
        alloc: Global,
        number: AllocNo,
        row: AllocRow,
    ) -> Result<bool, AllocError>
        requires after { comes_after self.old.last (key_of (kind.Alloc number row)) ≡ true }
        ensures { IfOk result (λ taken. Accepts taken self.old (kind.Alloc number row) self.new) }
    {
        if !self.lists.recorded {
            return Ok(false);
        }
        if !self.alloc_fits(alloc, number, &row)? {
            return Ok(false);
        }
        self.push_alloc(number, row)?;
        Ok(true)
    }

    // Whether it fits.
    fn alloc_fits(&self, alloc: Global, number: AllocNo, row: &AllocRow) -> Result<bool, AllocError>
        ensures { IfOk result (λ fits. fits ≡ alloc_fits self.now.farm number row.now) }
    {
        let has_label = has_label(alloc, self.lists.allocs.as_slice(), &label_of(alloc, row)?)?;
        Ok(
            number.0 as usize == self.lists.allocs.len()
                && (u32::from(number.0) < MOST_ALLOCS && (is_formed_alloc(row) && !has_label)),
        )
    }

    // It is the last of the allocations.
    fn push_alloc(&mut self, number: AllocNo, row: AllocRow) -> Result<(), AllocError>
        requires after { comes_after self.old.last (key_of (kind.Alloc number row)) ≡ true }
        ensures { OnOk result (self.new ≡ told_with self.old (kind.Alloc number row)) }
    {
        self.lists.allocs.push(row)?;
        self.last = Some((3, u64::from(number.0)));
        Ok(())
    }
}

// An allocation's name.
fn label_of(alloc: Global, row: &AllocRow) -> Result<Text, AllocError>
    ensures { IfOk result (λ label. label ≡ alloc_label row.now) }
{
    let mut label = String::from_str(alloc, row.facility.as_str())?;
    label.push_str(".")?;
    label.push_str(row.tag.as_str())?;
    Ok(Text::from_string(label))
}

// Whether an allocation has the name.
fn has_label(alloc: Global, rows: &[AllocRow], name: &Text) -> Result<bool, AllocError>
    ensures { IfOk result (λ found. found ≡ list_any (λ row. bytes_eq (alloc_label row) name.now) rows.now) }
{
    for row in rows {
        let label = label_of(alloc, row)?;
        if label.is(name.as_str()) {
            return Ok(true);
        }
    }
    Ok(false)
}
