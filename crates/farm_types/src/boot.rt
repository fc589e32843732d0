//! A host's boot.

ghost use Rattle.std.specs.Prelude.{◌≡◌, IfOk};

use crate::items::Items;
use crate::numbers::{Cores, Kb};
use crate::text::Text;
use std::alloc::{AllocError, Global};

/// What a host says as it boots: its name, a number that is new with each life of the host, the name of its
/// allocation (`facility.tag`), its own tags, its cores (hundredths of a core) and its memory (KB).
#[derive(Debug, Drop)]
pub struct BootLine {
    pub host: Text,
    pub nonce: u64,
    pub alloc: Text,
    pub tags: Items<Text>,
    pub cores: Cores,
    pub memory: Kb,
}

impl BootLine {
    /// An equal boot.
    pub fn copy(&self, alloc: Global) -> Result<BootLine, AllocError>
        ensures { IfOk result (λ copy. copy ≡ self.now) }
    {
        Ok(BootLine {
            host: self.host.copy(alloc)?,
            nonce: self.nonce,
            alloc: self.alloc.copy(alloc)?,
            tags: self.tags.copy(alloc)?,
            cores: self.cores,
            memory: self.memory,
        })
    }
}
