//! What is read of the book.

ghost use Rattle.std.specs.Prelude.{◌≡◌, ◌≤◌, length, option_copied, slice_get};
ghost use Rattle.farm_types.specs.Farm.{limit_from};
ghost use Rattle.farm_types.specs.declared.limits.TheConstants.{MOST_LIMITS};
ghost use Rattle.farm_types.specs.Sums.{total_at};
ghost use Rattle.limit_book.specs.Book.{state_of};

use crate::limits::Limits;
use farm_types::{LimitNo, LimitRow};

/// How many frames of the layers that have a limit run at most, and how many run.
#[derive(Clone, Copy, Debug, PartialEq, Eq)]
pub struct LimitState {
    pub most: u32,
    pub running: u32,
}

impl Limits {
    /// How many limits there are. There is a count of each.
    pub fn count(&self) -> usize
        ensures value { result ≡ length self.now.limits }
        ensures within { result ≤ MOST_LIMITS }
        ensures counts { length self.now.running ≡ length self.now.limits }
    {
        self.rows.len()
    }

    /// The number of the limit of that name.
    pub fn find(&self, name: &str) -> Option<LimitNo>
        ensures { result ≡ limit_from 0 name.now self.now.limits }
    {
        number_of(self.rows.as_slice(), name)
    }

    /// The limit of that number.
    pub fn row(&self, limit: LimitNo) -> Option<&LimitRow>
        ensures { option_copied result ≡ slice_get self.now.limits limit }
    {
        row_in(self.rows.as_slice(), usize::from(limit.0))
    }

    /// How many frames run in the limit of that number, none where it isn't there.
    pub fn running(&self, limit: LimitNo) -> u32
        ensures { result ≡ total_at self.now.running limit }
    {
        total_in(self.running.as_slice(), usize::from(limit.0))
    }

    /// How many frames may run in the limit of that number, and how many do.
    pub fn get(&self, limit: LimitNo) -> Option<LimitState>
        ensures { result ≡ state_of self.now limit }
    {
        let row = row_in(self.rows.as_slice(), usize::from(limit.0))?;
        Some(LimitState {
            most: row.most,
            running: self.running(limit),
        })
    }
}

/// The number of the first limit of that name.
pub(crate) fn number_of(rows: &[LimitRow], name: &str) -> Option<LimitNo>
    requires { length rows.now ≤ MOST_LIMITS }
    ensures { result ≡ limit_from 0 name.now rows.now }
{
    for (place, row) in rows.iter().enumerate() {
        if row.name.is(name) {
            return Some(LimitNo(place as u8));
        }
    }
    None
}

// The limit at a place of the list.
fn row_in(rows: &[LimitRow], place: usize) -> Option<&LimitRow>
    ensures { option_copied result ≡ slice_get rows.now place }
{
    rows.get(place)
}

// The total at a place, 0 past the last.
fn total_in(totals: &[u32], place: usize) -> u32
    ensures { result ≡ total_at totals.now place }
{
    match totals.get(place) {
        None => 0,
        Some(total) => *total,
    }
}
