//! What a seat holds of a subscription, of a host and of a slot. No value of these types is made.

use farm_types::{Cores, HostNo, Kb, Slot, SubNo, Version};

/// Cores that were added to what is booked of a subscription.
pub struct Take {
    pub sub: SubNo,
    pub cores: Cores,
}

/// Amounts that were taken of what a host has free.
pub struct Room {
    pub host: HostNo,
    pub cores: Cores,
    pub memory: Kb,
}

/// A claim of a slot at a version, with what it books. The limit is 0 for none, else the limit's number plus 1.
pub struct Claim {
    pub slot: Slot,
    pub version: Version,
    pub host: HostNo,
    pub sub: SubNo,
    pub cores: Cores,
    pub limit: u8,
    pub memory: Kb,
}
