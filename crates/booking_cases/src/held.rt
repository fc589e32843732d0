//! What a seat holds on its way to a booking, as numbers that can be kept: what stands for it in a call is put together again for
//! each call.

ghost use Rattle.std.specs.Prelude.{◌≡◌};
ghost use Rattle.booking_cases.specs.Holding.{burst_in, claim_in, hold_in};

use booking_table::{BurstHold, Claim, Hold};
use farm_types::{Cores, HostNo, Kb, LimitNo, Slot, SubNo, Version};

/// Cores of a subscription, with a place in a limit or without.
#[derive(Clone, Copy, Debug, PartialEq, Eq)]
pub struct HeldBurst {
    pub sub: SubNo,
    pub cores: Cores,
    pub limit: Option<LimitNo>,
}

/// The same with room on a host.
#[derive(Clone, Copy, Debug, PartialEq, Eq)]
pub struct HeldRoom {
    pub burst: HeldBurst,
    pub host: HostNo,
    pub memory: Kb,
}

/// The same for a slot that was claimed.
#[derive(Clone, Copy, Debug, PartialEq, Eq)]
pub struct HeldClaim {
    pub slot: Slot,
    pub version: Version,
    pub room: HeldRoom,
}

/// What a seat holds.
#[derive(Clone, Copy, Debug, PartialEq, Eq)]
pub enum Held {
    Nothing,
    Burst { burst: HeldBurst },
    Room { room: HeldRoom },
    Claim { claim: HeldClaim },
}

/// What a hold of cores stands for.
pub(crate) fn held_burst(burst: BurstHold) -> HeldBurst
    ensures { burst_in result ≡ burst }
{
    let (sub, cores, limit) = burst.into_parts();
    HeldBurst { sub, cores, limit }
}

/// What a hold stands for.
pub(crate) fn held_room(hold: Hold) -> HeldRoom
    ensures { hold_in result ≡ hold }
{
    let (burst, host, memory) = hold.into_parts();
    HeldRoom {
        burst: held_burst(burst),
        host,
        memory,
    }
}

/// What a claim stands for.
pub(crate) fn held_claim(claim: Claim) -> HeldClaim
    ensures { claim_in result ≡ claim }
{
    let (slot, version, hold) = claim.into_parts();
    HeldClaim {
        slot,
        version,
        room: held_room(hold),
    }
}

/// The cores, for a call.
pub(crate) fn burst_of(burst: &HeldBurst) -> BurstHold
    ensures { result ≡ burst_in burst.now }
{
    BurstHold::of(burst.sub, burst.cores, burst.limit)
}

/// The hold, for a call.
pub(crate) fn hold_of(room: &HeldRoom) -> Hold
    ensures { result ≡ hold_in room.now }
{
    Hold::of(burst_of(&room.burst), room.host, room.memory)
}

/// The claim, for a call.
pub(crate) fn claim_of(claim: &HeldClaim) -> Claim
    ensures { result ≡ claim_in claim.now }
{
    Claim::of(claim.slot, claim.version, hold_of(&claim.room))
}
