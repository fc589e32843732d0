//! What a dispatcher holds on its way to a booking. A value of these types can't be let go: a call takes it back, or takes it
//! over. What the seat's view has decides, so that a forged or an old one does no harm.

ghost use Rattle.std.specs.Prelude.{◌≡◌};

use farm_types::{Cores, HostNo, Kb, LimitNo, Slot, SubNo, Version};

/// Cores that were added to what is booked of a subscription, and the limit in which a place was taken for them, if any.
pub struct BurstHold {
    pub(crate) sub: SubNo,
    pub(crate) cores: Cores,
    pub(crate) limit: Option<LimitNo>,
}

impl BurstHold {
    /// What stands for such a take. Whether a seat has it, its view decides.
    pub fn of(sub: SubNo, cores: Cores, limit: Option<LimitNo>) -> BurstHold
        ensures { result ≡ record { sub = sub; cores = cores; limit = limit } }
    {
        BurstHold { sub, cores, limit }
    }

    /// The subscription.
    pub fn sub(&self) -> SubNo
        ensures { result ≡ self.now.sub }
    {
        self.sub
    }

    /// The cores.
    pub fn cores(&self) -> Cores
        ensures { result ≡ self.now.cores }
    {
        self.cores
    }

    /// The limit in which it has a place.
    pub fn limit(&self) -> Option<LimitNo>
        ensures { result ≡ self.now.limit }
    {
        self.limit
    }

    /// Its parts. What they stand for stays taken.
    pub fn into_parts(self) -> (SubNo, Cores, Option<LimitNo>)
        ensures { result ≡ (self.sub, self.cores, self.limit) }
    {
        let BurstHold { sub, cores, limit } = self;
        (sub, cores, limit)
    }
}

/// The same with room on a host: the cores, and memory.
pub struct Hold {
    pub(crate) burst: BurstHold,
    pub(crate) host: HostNo,
    pub(crate) memory: Kb,
}

impl Hold {
    /// What stands for the cores with such a room. Whether a seat has them, its view decides.
    pub fn of(burst: BurstHold, host: HostNo, memory: Kb) -> Hold
        ensures { result ≡ record { burst = burst; host = host; memory = memory } }
    {
        Hold {
            burst,
            host,
            memory,
        }
    }

    /// The cores and their subscription.
    pub fn burst(&self) -> &BurstHold
        ensures { result.now ≡ self.now.burst }
    {
        &self.burst
    }

    /// The host.
    pub fn host(&self) -> HostNo
        ensures { result ≡ self.now.host }
    {
        self.host
    }

    /// The memory.
    pub fn memory(&self) -> Kb
        ensures { result ≡ self.now.memory }
    {
        self.memory
    }

    /// Its parts. What they stand for stays taken.
    pub fn into_parts(self) -> (BurstHold, HostNo, Kb)
        ensures { result ≡ (self.burst, self.host, self.memory) }
    {
        let Hold {
            burst,
            host,
            memory,
        } = self;
        (burst, host, memory)
    }
}

/// A slot that was claimed at a version, with what is held for it.
pub struct Claim {
    pub(crate) slot: Slot,
    pub(crate) version: Version,
    pub(crate) hold: Hold,
}

impl Claim {
    /// What stands for such a claim. Whether a seat has it, its view decides.
    pub fn of(slot: Slot, version: Version, hold: Hold) -> Claim
        ensures { result ≡ record { slot = slot; version = version; hold = hold } }
    {
        Claim {
            slot,
            version,
            hold,
        }
    }

    /// The slot.
    pub fn slot(&self) -> Slot
        ensures { result ≡ self.now.slot }
    {
        self.slot
    }

    /// The version that the slot has with it.
    pub fn version(&self) -> Version
        ensures { result ≡ self.now.version }
    {
        self.version
    }

    /// What is held.
    pub fn hold(&self) -> &Hold
        ensures { result.now ≡ self.now.hold }
    {
        &self.hold
    }

    /// Its parts. The slot stays claimed.
    pub fn into_parts(self) -> (Slot, Version, Hold)
        ensures { result ≡ (self.slot, self.version, self.hold) }
    {
        let Claim {
            slot,
            version,
            hold,
        } = self;
        (slot, version, hold)
    }
}
