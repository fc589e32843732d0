//! The listener that workers share.

ghost use Rattle.std.specs.Prelude.{◌≡◌, ◌≤◌, Some, IsErrOf, OnErr, OnOk};
ghost use Rattle.fault_counts.specs.Counts.{HasRisen, HasRisenBy, last_count};
ghost use Rattle.listener.specs.declared.accept.AcceptFault.TheVariants.{Failed};
ghost use Rattle.worker_pool.specs.Taken.{HasRisenByLess, raised};
ghost use Rattle.worker_pool.specs.declared.fault.WorkersFault.TheVariants.{Accept};

use crate::fault::WorkersFault;
use listener::{AcceptFault, Listener};
use std::marker::{Brand, PhantomData};

/// What was so as the workers began: which listener they share, what it had counted, and how many connections they are to take.
pub(crate) trait Start {
    ghost use Rattle.std.specs.Prelude.{ℕ};

    ghost listener: { ℕ };

    ghost accepted: { ℕ };

    ghost faults: { ℕ };

    ghost connections: { ℕ };
}

// Each run of workers picks its own.
impl Start for Brand {
    ghost listener = { 0 };

    ghost accepted = { 0 };

    ghost faults = { 0 };

    ghost connections = { 0 };
}

/// A listener, how many connections are to be taken of it, how many were, and why no more of them can be had, once one couldn't.
pub(crate) struct Desk<'a, L: Listener, S: Start> {
    pub listener: &'a mut L,
    pub connections: u64,
    pub taken: u64,
    pub fault: Option<AcceptFault>,
    pub of: PhantomData<S>,
    pub ghost same: { listener.ghost_name ≡ S.listener },
    pub ghost all: { connections ≡ S.connections },
    pub ghost within: { taken ≤ connections },
    pub ghost counted: { L.accepted listener.now ≡ raised taken S.accepted },
    pub ghost rises: { S.faults ≤ L.faults listener.now },
    pub ghost cause: { fault ≡ Some Failed → L.faults listener.now ≤ S.faults → last_count ≤ L.faults listener.now },
}

impl<'a, L: Listener, S: Start> Desk<'a, L, S> {
    /// The next connection. There is none once all were taken, or one couldn't be had.
    pub fn take(&mut self) -> Option<(L::In, L::Out)> {
        if self.taken == self.connections || self.fault.is_some() {
            return None;
        }
        match self.listener.accept() {
            Ok(ends) => {
                self.taken += 1;
                Some(ends)
            }
            Err(AcceptFault::Failed) => {
                self.fault = Some(AcceptFault::Failed);
                None
            }
            Err(AcceptFault::NoMemory) => {
                self.fault = Some(AcceptFault::NoMemory);
                None
            }
        }
    }

    /// The listener, and whether all connections were taken.
    pub fn close(self) -> (&'a mut L, Result<(), WorkersFault>)
        ensures same { result.0.ghost_name ≡ S.listener }
        ensures ok { OnOk result.1 (HasRisenBy S.connections S.accepted (L.accepted result.0.now)) }
        ensures short { OnErr result.1 (HasRisenByLess S.connections S.accepted (L.accepted result.0.now)) }
        ensures cause { IsErrOf result.1 Accept → HasRisen S.faults (L.faults result.0.now) }
        ensures rises { S.faults ≤ L.faults result.0.now }
    {
        let Desk {
            listener,
            connections,
            taken,
            fault,
            of: _,
        } = self;
        if taken == connections {
            return (listener, Ok(()));
        }
        match fault {
            Some(AcceptFault::Failed) => (listener, Err(WorkersFault::Accept)),
            Some(AcceptFault::NoMemory) => (listener, Err(WorkersFault::NoMemory)),
            None => (listener, Err(WorkersFault::NoMemory)),
        }
    }
}
