//! The recorder behind the lock.

ghost use Rattle.std.specs.Prelude.{◌≡◌, [], IfOk};
ghost use Rattle.shared_bot.specs.Passes.{IsFree, IsTaken};

use crate::catching_up::open_pass;
use crate::opened::Opened;
use booking_table::Table;
use dispatcher::booking_recorder::{Pass, PassRefusal, Recorder};
use farm_keeper::Keeper;

/// The recorder behind the lock. Whenever the lock is free, each receipt and each failure of the store was taken by a pass.
#[derive(Drop)]
pub struct Locked<K: Keeper, N: Opened> {
    pub recorder: Recorder<K, N>,
    pub ghost taken: { IsTaken recorder },
    pub ghost opening: { recorder.view.opening ≡ N.opening },
}

impl<K: Keeper, N: Opened> Locked<K, N> {
    /// A pass more.
    pub fn pass(&mut self, table: &Table) -> Result<Pass<N>, PassRefusal>
        requires table { table.now ≡ N.table }
        ensures { IfOk result (λ p. IsFree N.opening p.view × (p.view.receipts ≡ []) × (p.faults ≡ 0)) }
    {
        open_pass(table, &mut self.recorder)
    }
}
