//! The fields of a host's boot.

use farm_types::{Items, Text};

/// The fields of a boot before its amounts are judged: cores and memory are any numbers of 64 bits.
#[derive(Debug, Drop)]
pub struct BootForm {
    pub host: Text,
    pub nonce: u64,
    pub alloc: Text,
    pub tags: Items<Text>,
    pub cores: u64,
    pub memory: u64,
}
