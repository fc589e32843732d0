//! What is booked already, and the rows again.

ghost use Rattle.std.specs.Prelude.{◌≡◌, ◌≤◌, ◌+◌, length, IfOk};
ghost use Rattle.farm_types.specs.Farm.{changed_at};
ghost use Rattle.farm_types.specs.declared.limits.TheConstants.{SUB_NUMBERS};
ghost use Rattle.sub_ledger.specs.Inside.{row_for, rows_from};
ghost use Rattle.sub_ledger.specs.Ledger.{CanCount};

use crate::places::count_at;
use crate::subs::{SubState, Subs};
use farm_types::{Cores, SubNo, SubRow};
use std::alloc::{AllocError, Global};

impl Subs {
    /// Counts cores that are booked already of a subscription that is there. They may be more than its burst, which an operator may lower below what is
    /// booked.
    pub fn count(&mut self, sub: SubNo, cores: Cores)
        requires { CanCount self.old sub cores }
        ensures { self.new ≡ record self.old { booked = changed_at self.old.booked sub (λ total. total + cores) } }
    {
        count_at(&mut self.places, sub, cores);
    }

    /// The rows of the subscriptions that are there, in the order of their numbers.
    pub fn rows(&self, alloc: Global) -> Result<Vec<SubRow>, AllocError>
        ensures { IfOk result (λ rows. rows.items ≡ self.now.subs) }
    {
        rows_of(alloc, self.places.as_slice())
    }
}

// The rows of the places.
fn rows_of(alloc: Global, places: &[Option<SubState>]) -> Result<Vec<SubRow>, AllocError>
    requires { length places.now ≤ SUB_NUMBERS }
    ensures { IfOk result (λ rows. rows.items ≡ rows_from 0 places.now) }
{
    let mut rows = Vec::new(alloc);
    for (place, state) in places.iter().enumerate() {
        if let Some(state) = state {
            rows.push(row_for(SubNo(place as u16), state))?;
        }
    }
    Ok(rows)
}

// The row of a subscription.
fn row_for(sub: SubNo, state: &SubState) -> SubRow
    ensures { result ≡ row_for sub state.now }
{
    SubRow {
        sub,
        size: state.size,
        burst: state.burst,
    }
}
