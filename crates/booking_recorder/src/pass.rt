//! A pass: with it a dispatcher books beside the recorder.

ghost use Rattle.std.specs.Prelude.{◌≡◌, length};
ghost use Rattle.booking_recorder.specs.Passing.{IsNumbered};

use crate::naming::Naming;
use booking_table::Seat;
use std::marker::{Model, PhantomData};

/// A numbered seat of a table, with what its holder was told of the recorder: how many entries of the journal it has seen, and how many failures of the store
/// it has taken.
#[derive(Drop)]
pub struct Pass<N: Naming> {
    pub(crate) seat: Seat,
    pub(crate) count: u64,
    pub(crate) faults: u64,
    pub(crate) of: PhantomData<N>,
}

impl<N: Naming> Model for Pass<N> {
    ghost use Rattle.booking_recorder.specs.Passing.{IsPass, Passing};

    ghost Value = { Passing };

    ghost view = { λ p. record { view = p.seat.me.0; faults = p.faults } };

    ghost invariant = { λ p. IsPass N.table p.seat p.count };
}

impl<N: Naming> Pass<N> {
    /// How many entries of the journal it has seen.
    pub fn seen(&self) -> u64
        ensures { result ≡ length self.now.view.journal }
    {
        self.count
    }

    /// How many failures of the store it was told of.
    pub fn faults(&self) -> u64
        ensures { result ≡ self.now.faults }
    {
        self.faults
    }

    /// What a pass is between two calls: a numbered seat with nothing in flight.
    pub fn numbered(&self)
        ensures { IsNumbered self.now.view }
    {
        let _seat = &self.seat;
    }
}
