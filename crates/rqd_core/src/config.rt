//! What a host tells of itself.

use farm_types::{Cores, Kb, Text};

/// The host's name, the name of its allocation (`facility.tag`), its cores (hundredths of a core) and memory (KB), and the number of this life of it,
/// which is new with each.
#[derive(Debug, Drop)]
pub struct RqdConfig {
    pub name: Text,
    pub alloc: Text,
    pub cores: Cores,
    pub memory: Kb,
    pub nonce: u64,
}
