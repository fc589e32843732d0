//! What dispatchers share.

ghost use Rattle.std.specs.Prelude.{◌≡◌, [], IfOk};
ghost use Rattle.shared_bot.specs.Passes.{IsFree, IsTaken};

use crate::locked::Locked;
use crate::opened::Opened;
use booking_table::Table;
use dispatcher::booking_recorder::{Pass, PassRefusal, Recorder};
use farm_keeper::Keeper;
use std::sync::{Mutex, MutexGuard, Wait};

// So often a lock that another has is tried before the thread sleeps. What is done under it takes a few microseconds, and waking a thread takes as long again.
const TRIES: u32 = 500;

/// What dispatchers share: the words, and the recorder behind a lock.
#[derive(Drop)]
pub struct Bot<K: Keeper, N: Opened> {
    pub table: Table,
    pub desk: Mutex<Locked<K, N>>,
    pub ghost same: { table ≡ N.table },
}

impl<K: Keeper, N: Opened> Bot<K, N> {
    /// The words, and a recorder of them whose receipts and failures of the store were all taken by a pass.
    pub fn make(table: Table, recorder: Recorder<K, N>) -> Bot<K, N>
        requires table { table ≡ N.table }
        requires taken { IsTaken recorder }
        requires opening { recorder.view.opening ≡ N.opening }
    {
        Bot {
            table,
            desk: Mutex::new(Locked { recorder }),
        }
    }

    /// A pass more, which has seen the whole journal; refused only where 64 seats were split off.
    pub fn pass(&self, rt: &impl Wait) -> Result<Pass<N>, PassRefusal>
        ensures { IfOk result (λ p. IsFree N.opening p.view × (p.view.receipts ≡ []) × (p.faults ≡ 0)) }
    {
        self.hold(rt).pass(&self.table)
    }

    /// Takes the lock, which it tries for a while before it sleeps.
    pub fn hold<R: Wait>(&self, rt: &R) -> MutexGuard<'_, Locked<K, N>> {
        for _ in 0..TRIES {
            if let Some(held) = self.desk.try_lock() {
                return held;
            }
        }
        self.desk.lock(rt)
    }

    /// The recorder, once no one else has the lock.
    pub fn close(self) -> Recorder<K, N>
        ensures taken { IsTaken result }
        ensures opening { result.view.opening ≡ N.opening }
    {
        self.desk.into_inner().recorder
    }
}
