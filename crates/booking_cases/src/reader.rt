//! A seat that looks at words.

ghost use Rattle.std.specs.Prelude.{◌≡◌};
ghost use Rattle.booking_rule.specs.Seats.{IsSeated};
ghost use Rattle.booking_table.specs.Seats.{view, IsSeatOf};

use crate::said::Said;
use booking_recorder::Naming;
use booking_table::{Seat, Table};
use farm_types::{HostNo, LAST_SLOT, LimitNo, MOST_HOSTS, MOST_LIMITS, SUB_NUMBERS, Slot, SubNo};
use std::marker::{Model, PhantomData};

/// A seat with a number, which only looks.
#[derive(Drop)]
pub struct Reader<N: Naming> {
    seat: Seat,
    of: PhantomData<N>,
}

impl<N: Naming> Model for Reader<N> {
    ghost use Rattle.booking_rule.specs.declared.view.View.{View};
    ghost use Rattle.booking_rule.specs.Seats.{IsSeated};
    ghost use Rattle.booking_table.specs.Seats.{IsSeatOf};

    ghost Value = { View };

    ghost view = { λ r. r.seat.me.0 };

    ghost invariant = { λ r. IsSeatOf N.table r.seat × IsSeated r.seat.me.0 };
}

impl<N: Naming> Reader<N> {
    /// Such a seat.
    pub(crate) fn make(seat: Seat) -> Reader<N>
        requires seat { IsSeatOf N.table seat }
        requires seated { IsSeated (view seat) }
    {
        Reader {
            seat,
            of: PhantomData,
        }
    }

    /// What a slot's words show.
    pub(crate) fn slot(&mut self, table: &Table, slot: Slot) -> Said
        requires table { table.now ≡ N.table }
    {
        if slot.0 > LAST_SLOT {
            return Said::Unknown;
        }
        Said::Slot {
            seen: table.look(&mut self.seat, slot),
        }
    }

    /// What a host has free.
    pub(crate) fn host(&mut self, table: &Table, host: HostNo) -> Said
        requires table { table.now ≡ N.table }
    {
        if u32::from(host.0) >= MOST_HOSTS {
            return Said::Unknown;
        }
        Said::Host {
            word: table.host_word(&mut self.seat, host),
        }
    }

    /// What is booked of a subscription, and its burst.
    pub(crate) fn sub(&mut self, table: &Table, sub: SubNo) -> Said
        requires table { table.now ≡ N.table }
    {
        if u32::from(sub.0) >= SUB_NUMBERS {
            return Said::Unknown;
        }
        Said::Sub {
            word: table.sub_word(&mut self.seat, sub),
        }
    }

    /// How many frames run in a limit, and how many may.
    pub(crate) fn limit(&mut self, table: &Table, limit: LimitNo) -> Said
        requires table { table.now ≡ N.table }
    {
        if u32::from(limit.0) >= MOST_LIMITS {
            return Said::Unknown;
        }
        Said::Limit {
            word: table.limit_word(&mut self.seat, limit),
        }
    }
}
