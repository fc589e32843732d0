//! What is done over a keeper.

use farm_keeper::Keeper;
use std::alloc::Global;

/// What is done over a keeper, whichever it is. The keeper is handed back.
pub trait Work {
    fn work<K: Keeper>(&mut self, alloc: Global, keeper: K) -> K;
}
