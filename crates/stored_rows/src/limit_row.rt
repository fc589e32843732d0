//! Rows of limits.

ghost use Rattle.std.specs.Prelude.{◌≡◌, true, bytes_eq, IfOk, OnErr, OnOk};
ghost use Rattle.std.specs.List.{list_any};
ghost use Rattle.farm_types.specs.Kept.{limit_label};
ghost use Rattle.farm_rows.specs.declared.farm_row.FarmRow.TheVariants as kind;
ghost use Rattle.farm_rows.specs.Recovery.{comes_after, key_of, limit_fits};
ghost use Rattle.stored_rows.specs.Told.{Accepts, told_with};

use crate::forms::is_formed_limit;
use crate::stored_rows::StoredRows;
use farm_rows::ROW_FORMAT;
use farm_types::{LimitNo, LimitRow, MOST_LIMITS, Text};
use std::alloc::{AllocError, Global};

impl StoredRows {
    /// Takes the row of a limit, of kind 11, where it comes after the last one and fits the farm so far, and says whether it does.
    pub fn add_limit(
        &mut self,
        alloc: Global,
        limit: LimitNo,
        row: LimitRow,
    ) -> Result<bool, AllocError>
        ensures ok { IfOk result (λ taken. Accepts taken self.old (kind.Limit limit row) self.new) }
        ensures err { OnErr result (self.new ≡ self.old) }
    {
        if !self.comes_after(11, u64::from(limit.0)) {
            return Ok(false);
        }
        if !(self.lists.recorded && self.limit_fits(limit, &row)) {
            return Ok(false);
        }
        self.push_limit(alloc, limit, row)?;
        Ok(true)
    }

    // Whether it fits.
    fn limit_fits(&self, limit: LimitNo, row: &LimitRow) -> bool
        ensures { result ≡ limit_fits self.now.format self.now.farm limit row.now }
    {
        self.format == ROW_FORMAT
            && (limit.0 as usize == self.lists.limits.len()
                && (u32::from(limit.0) < MOST_LIMITS
                    && (is_formed_limit(row) && !self.has_limit(&row.name))))
    }

    // Whether a limit has the name.
    fn has_limit(&self, name: &Text) -> bool
        ensures { result ≡ list_any (λ limit. bytes_eq (limit_label limit) name.now) self.now.farm.limits }
    {
        self.limits.has(name)
    }

    // It is the last of the limits.
    fn push_limit(&mut self, alloc: Global, limit: LimitNo, row: LimitRow) -> Result<(), AllocError>
        requires after { comes_after self.old.last (key_of (kind.Limit limit row)) ≡ true }
        requires fits { limit_fits self.old.format self.old.farm limit row ≡ true }
        ensures ok { OnOk result (self.new ≡ told_with self.old (kind.Limit limit row)) }
        ensures err { OnErr result (self.new ≡ self.old) }
    {
        self.lists.limits.reserve(1)?;
        self.limits.add(alloc, &row.name)?;
        self.lists.limits.push_reserved(row);
        self.last = Some((11, u64::from(limit.0)));
        Ok(())
    }
}
