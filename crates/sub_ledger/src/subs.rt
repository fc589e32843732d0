//! The subscriptions, in the order of their numbers.

ghost use Rattle.std.specs.Prelude.{◌≡◌, ◌<◌, ◌+◌, ◌-◌, IfOk};
ghost use Rattle.farm_types.specs.Farm.{changed_at};
ghost use Rattle.farm_types.specs.Subs.{with_sub};
ghost use Rattle.farm_types.specs.Sums.{total_at};
ghost use Rattle.sub_ledger.specs.Ledger.{no_subs, state_of, row_of, size_of, before, CanAdd, CanRemove};
ghost use Rattle.farm_types.specs.declared.limits.TheConstants.{SUB_NUMBERS};

use crate::places::{add_at, remove_at, set_at, state_at};
use crate::ratio::by_ratio;
use farm_types::{Cores, SUB_NUMBERS, SubNo, SubRow};
use std::alloc::{AllocError, Global};
use std::cmp::Ordering;
use std::marker::Model;

/// A subscription: its size, its burst, and what is booked of it (hundredths of a core).
#[derive(Clone, Copy, Debug, PartialEq, Eq)]
pub struct SubState {
    pub size: Cores,
    pub burst: Cores,
    pub booked: Cores,
}

/// The subscriptions by number, 0 to 1,023. Contracts see the rows of those that are there, in order, and for each number
/// what is booked of it.
#[derive(Debug, Drop)]
pub struct Subs {
    pub(crate) places: Vec<Option<SubState>>,
}

impl Model for Subs {
    ghost use Rattle.sub_ledger.specs.Ledger as types;

    ghost Value = { types.Ledger };

    ghost use Rattle.sub_ledger.specs.Inside.{ledger_of, HasAllPlaces};

    ghost view = { ledger_of };

    ghost invariant = { HasAllPlaces };
}

impl Subs {
    /// No subscriptions. It takes the memory of all.
    pub fn make(alloc: Global) -> Result<Subs, AllocError>
        ensures { IfOk result (λ b. b ≡ no_subs) }
    {
        Ok(Subs {
            places: vec![in alloc; None; SUB_NUMBERS as usize]?,
        })
    }

    /// Sets a subscription's size and burst, and adds it where it isn't there. What is booked stays, also above the burst.
    pub fn set(&mut self, sub: SubNo, size: Cores, burst: Cores)
        requires { sub < SUB_NUMBERS }
        ensures { self.new ≡ record self.old { subs = with_sub (record { sub = sub; size = size; burst = burst }) self.old.subs } }
    {
        set_at(&mut self.places, sub, size, burst);
    }

    /// Books cores of a subscription that is there, within its burst.
    pub fn add(&mut self, sub: SubNo, cores: Cores)
        requires { CanAdd self.old sub cores }
        ensures { self.new ≡ record self.old { booked = changed_at self.old.booked sub (λ total. total + cores) } }
    {
        add_at(&mut self.places, sub, cores);
    }

    /// Gives back cores that are booked of a subscription that is there.
    pub fn remove(&mut self, sub: SubNo, cores: Cores)
        requires { CanRemove self.old sub cores }
        ensures { self.new ≡ record self.old { booked = changed_at self.old.booked sub (λ total. total - cores) } }
    {
        remove_at(&mut self.places, sub, cores);
    }

    /// The subscription of that number.
    pub fn get(&self, sub: SubNo) -> Option<SubState>
        ensures { result ≡ state_of self.now sub }
    {
        state_at(self.places.as_slice(), sub)
    }

    /// Its row.
    pub fn row(&self, sub: SubNo) -> Option<SubRow>
        ensures { result ≡ row_of self.now sub }
    {
        match state_at(self.places.as_slice(), sub) {
            None => None,
            Some(state) => Some(SubRow {
                sub,
                size: state.size,
                burst: state.burst,
            }),
        }
    }

    /// The cores that are booked of the subscription of that number, 0 where it isn't there.
    pub fn booked(&self, sub: SubNo) -> Cores
        ensures { result ≡ total_at self.now.booked sub }
    {
        match state_at(self.places.as_slice(), sub) {
            None => Cores(0),
            Some(state) => state.booked,
        }
    }

    // The size of the subscription of that number, 0 where it isn't there.
    fn size(&self, sub: SubNo) -> Cores
        ensures { result ≡ size_of self.now sub }
    {
        match self.row(sub) {
            None => Cores(0),
            Some(row) => row.size,
        }
    }

    /// How two subscriptions compare by what is booked of their sizes. Size 0 comes last, as does one that isn't there, and ties
    /// are Equal.
    pub fn before(&self, first: SubNo, second: SubNo) -> Ordering
        ensures { result ≡ before self.now first second }
    {
        by_ratio(
            u64::from(self.booked(first).0),
            u64::from(self.size(first).0),
            u64::from(self.booked(second).0),
            u64::from(self.size(second).0),
        )
    }

    /// An equal ledger.
    pub fn copy(&self, alloc: Global) -> Result<Subs, AllocError>
        ensures { IfOk result (λ b. b ≡ self.now) }
    {
        Ok(Subs {
            places: Vec::from_slice(alloc, self.places.as_slice())?,
        })
    }
}
