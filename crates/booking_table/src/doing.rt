//! What a step is about. The word and the amounts of the step itself don't say all of it.

use farm_types::{Cores, HostNo, Kb, LimitNo, Slot, SubNo, Version};

/// What a step is about: the word that is looked at, or what is taken, given or claimed. It is for the proof alone.
#[derive(Clone, Copy)]
pub enum Doing {
    LoadFrame {
        slot: Slot,
    },
    LoadAmount {
        slot: Slot,
    },
    LoadHost {
        host: HostNo,
    },
    LoadSub {
        sub: SubNo,
    },
    LoadLimit {
        limit: LimitNo,
    },
    TakeBurst {
        sub: SubNo,
        cores: Cores,
    },
    RetractBurst {
        sub: SubNo,
        cores: Cores,
    },
    GiveBurst {
        sub: SubNo,
        cores: Cores,
    },
    TakeLimit {
        limit: LimitNo,
    },
    RetractLimit {
        limit: LimitNo,
    },
    GiveLimit {
        limit: LimitNo,
    },
    TakeRoom {
        host: HostNo,
        cores: Cores,
        memory: Kb,
        free: u64,
    },
    GiveRoom {
        host: HostNo,
        cores: Cores,
        memory: Kb,
    },
    Claims {
        slot: Slot,
        version: Version,
        host: HostNo,
        sub: SubNo,
        cores: Cores,
        limit: Option<LimitNo>,
        memory: Kb,
    },
    Drops {
        slot: Slot,
        version: Version,
        host: HostNo,
        sub: SubNo,
        cores: Cores,
        limit: Option<LimitNo>,
        memory: Kb,
    },
}
