//! What a step is about. The word and the amount of the step itself don't say all of it.

use farm_types::{Cores, HostNo, Kb, LimitNo, Slot, SubNo, Version};

/// What a step is about: its kind, with its operands. It is for the proof alone.
#[derive(Clone, Copy)]
pub enum Doing {
    Leaves {
        slot: Slot,
        word: u64,
    },
    Ends {
        slot: Slot,
        word: u64,
    },
    Turns {
        slot: Slot,
        word: u64,
    },
    SetsAmount {
        slot: Slot,
        word: u64,
    },
    SetsBurst {
        sub: SubNo,
        old: Cores,
        new: Cores,
    },
    SetsMost {
        limit: LimitNo,
        old: u32,
        new: u32,
    },
    SetsSize {
        host: HostNo,
        cores: Cores,
        memory: Kb,
    },
    Places {
        slot: Slot,
        word: u64,
    },
    PlacesSize {
        host: HostNo,
        cores: Cores,
        memory: Kb,
    },
    PlacesBurst {
        sub: SubNo,
        burst: Cores,
        booked: Cores,
    },
    PlacesMost {
        limit: LimitNo,
        most: u32,
        running: u32,
    },
    Confirms {
        slot: Slot,
        version: Version,
        host: HostNo,
        sub: SubNo,
        cores: Cores,
        limit: Option<LimitNo>,
        memory: Kb,
    },
    Withdraws {
        slot: Slot,
        version: Version,
        host: HostNo,
        sub: SubNo,
        cores: Cores,
        limit: Option<LimitNo>,
        memory: Kb,
    },
}
