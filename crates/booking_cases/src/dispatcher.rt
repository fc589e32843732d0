//! A dispatcher: a seat that was split off for a host, with what it saw and what it holds.

ghost use Rattle.std.specs.Prelude.{◌≡◌, ◌<◌, IfSome};
ghost use Rattle.booking_table.specs.Holds.{claim_of};
ghost use Rattle.booking_table.specs.Seats.{view, IsSeatOf};
ghost use Rattle.recording_core.specs.Machine.{IsFormed};
ghost use Rattle.booking_cases.specs.Holding.{claim_in};
ghost use Rattle.booking_cases.specs.Working.{AllSuit, IsFree};

use crate::advance::{Work, advance};
use crate::held::{Held, HeldClaim};
use crate::plan::Plan;
use crate::said::Said;
use crate::step::Call;
use booking_recorder::Naming;
use booking_table::{Seat, Table};
use std::marker::{Model, PhantomData};

/// A seat with a number, and what of its plan it looked at and holds. Between two calls nothing of it is in flight.
#[derive(Drop)]
pub struct Dispatcher<N: Naming> {
    seat: Seat,
    plan: Plan,
    work: Work,
    of: PhantomData<N>,
}

impl<N: Naming> Model for Dispatcher<N> {
    ghost use Rattle.booking_rule.specs.declared.view.View.{View};
    ghost use Rattle.booking_cases.specs.Working.{IsWorking};

    ghost Value = { View };

    ghost view = { λ d. d.seat.me.0 };

    ghost invariant = { λ d. IsWorking N.table d.seat d.plan d.work };
}

impl<N: Naming> Dispatcher<N> {
    /// A seat that was split off just now, with what suits the host in the farm of its journal.
    pub(crate) fn make(seat: Seat, plan: Plan) -> Dispatcher<N>
        requires seat { IsSeatOf N.table seat }
        requires free { IsFree (view seat) }
        requires within { plan.host < 4096 }
        requires suits { AllSuit (view seat) plan }
    {
        Dispatcher {
            seat,
            plan,
            work: Work {
                seen: None,
                held: Held::Nothing,
            },
            of: PhantomData,
        }
    }

    /// Makes a call, and says what it answers.
    pub(crate) fn call(&mut self, table: &Table, call: Call) -> Said
        requires table { table.now ≡ N.table }
    {
        advance(table, &mut self.seat, &self.plan, &mut self.work, call)
    }

    /// The claim that it holds, if it holds one.
    pub(crate) fn claim(&self) -> Option<HeldClaim>
        ensures { IfSome result (λ claim. IsFormed (claim_of (claim_in claim))) }
    {
        match self.work.held {
            Held::Claim { claim } => Some(claim),
            _ => None,
        }
    }

    /// Its claim was booked: it holds nothing more.
    pub(crate) fn let_go(&mut self) {
        self.work.held = Held::Nothing;
    }
}
