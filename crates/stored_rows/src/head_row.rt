//! The farm's own row.

ghost use Rattle.std.specs.Prelude.{◌≡◌, ◌+◌, true};
ghost use Rattle.farm_types.specs.Forms.{is_between};
ghost use Rattle.farm_types.specs.declared.limits.TheConstants.{LAST_DEPEND, LAST_JOB};
ghost use Rattle.farm_rows.specs.declared.farm_row.FarmRow.TheVariants as kind;
ghost use Rattle.farm_rows.specs.declared.head_row.TheConstants.{ROW_FORMAT};
ghost use Rattle.farm_rows.specs.Recovery.{comes_after, head_fits, key_of};
ghost use Rattle.stored_rows.specs.Told.{Accepts, told_with};

use crate::forms::is_long;
use crate::stored_rows::StoredRows;
use farm_rows::{HeadRow, ROW_FORMAT};
use farm_types::{LAST_DEPEND, LAST_JOB};

impl StoredRows {
    /// Takes the farm's own row.
    pub(crate) fn add_head(&mut self, row: &HeadRow) -> bool
        requires after { comes_after self.old.last (key_of (kind.Head row.now)) ≡ true }
        ensures { Accepts result self.old (kind.Head row.now) self.new }
    {
        if !self.head_fits(row) {
            return false;
        }
        self.push_head(row);
        true
    }

    // Whether it fits.
    fn head_fits(&self, row: &HeadRow) -> bool
        ensures { result ≡ head_fits self.now.farm row.now }
    {
        !self.lists.recorded
            && (is_format(row.format)
                && (is_long(row.moment)
                    && (is_depend(row.depends) && (is_job(row.finishes) && is_job(row.jobs)))))
    }

    // It is the farm's.
    fn push_head(&mut self, row: &HeadRow)
        requires after { comes_after self.old.last (key_of (kind.Head row.now)) ≡ true }
        requires fits { head_fits self.old.farm row.now ≡ true }
        ensures { self.new ≡ told_with self.old (kind.Head row.now) }
    {
        self.lists.moment = row.moment;
        self.lists.next_job = row.jobs;
        self.lists.next_finish = row.finishes;
        self.lists.recorded = true;
        self.next_depend = row.depends;
        self.last = Some((1, 0));
        self.format = row.format;
    }
}

// Whether it is one of both formats.
fn is_format(format: u64) -> bool
    ensures { result ≡ is_between 1 ROW_FORMAT format }
{
    1 <= format && format <= ROW_FORMAT
}

// Whether it may be the next number of a job, or of one that finishes.
fn is_job(number: u64) -> bool
    ensures { result ≡ is_between 1 (LAST_JOB + 1) number }
{
    1 <= number && number <= u64::from(LAST_JOB) + 1
}

// Whether it may be the next number of a depend.
fn is_depend(number: u64) -> bool
    ensures { result ≡ is_between 1 (LAST_DEPEND + 1) number }
{
    1 <= number && number <= u64::from(LAST_DEPEND) + 1
}
