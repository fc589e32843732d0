//! A store of which nothing is kept, and which refuses one commit.

ghost use Rattle.std.specs.Prelude.{◌≡◌};
ghost use Rattle.world_answers.specs.Refusing.{Commits, new_refusing};

use farm_keeper::{Batch, Keeper, KeeperFault, Row};
use farm_types::Items;
use std::alloc::Global;

/// A store that takes so many commits and refuses the next one, or refuses none. It keeps no rows, and so tells nothing of them.
#[derive(Debug, Drop)]
pub(crate) struct Refusing {
    // How many commits come before the one that is refused; none where none is.
    due: Option<u32>,
    faults: u64,
}

impl Refusing {
    /// A store that refuses the commit after so many.
    pub(crate) fn make(due: Option<u32>) -> Refusing
        ensures { result ≡ new_refusing due }
    {
        Refusing { due, faults: 0 }
    }
}

impl Keeper for Refusing {
    ghost use Rattle.world_answers.specs.Refusing.{Commits};

    ghost tells = { λ _. ⊥ };

    ghost holds = { λ _ _. ⊥ };

    ghost left = { λ _ _. ⊥ };

    ghost faults = { λ k. k.faults };

    ghost commits = { λ batch answer before now. Commits answer before now };

    ghost leaves = { λ k tells. absurd tells };

    ghost leaves_held = { λ k rows tells only. absurd tells };

    fn load(&mut self, alloc: Global) -> Result<Items<Row>, KeeperFault> {
        Ok(Items::new(alloc))
    }

    fn commit(&mut self, _: Global, batch: Batch) -> Result<(), KeeperFault> {
        let _batch = batch;
        match self.due {
            None => Ok(()),
            Some(0) => {
                self.due = None;
                self.faults = self.faults.saturating_add(1);
                Err(KeeperFault::Failed)
            }
            Some(due) => {
                self.due = Some(due - 1);
                Ok(())
            }
        }
    }
}
