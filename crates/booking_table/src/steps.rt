//! Each kind of a claimant's step on one word.

ghost use Rattle.std.specs.Prelude.{◌≡◌, ◌≤◌, ◌<◌, ◌==◌, true, false, [], None, Some};
ghost use Rattle.farm_types.specs.Limits.{IsBetween};
ghost use Rattle.farm_types.specs.declared.limits.TheConstants.{LEAST_CORES, LEAST_MEMORY, MOST_CORES, MOST_MEMORY};
ghost use Rattle.frame_words.specs.Bits.{frame_of, frame_bits, amount_of, host_of, sub_of, limit_of};
ghost use Rattle.booking_rule.specs.Words.{frame_place, amount_place, host_place, sub_place, limit_place};
ghost use Rattle.booking_rule.specs.Views.{take_of, room_of, same_take, same_limit, same_room, same_claim, holds};
ghost use Rattle.booking_rule.specs.Link.{farm_of, stand_at};
ghost use Rattle.booking_rule.specs.Alone.{IsAlone, ShowsBurst, ShowsLimit, ShowsRoom, ShowsSlot};
ghost use Rattle.booking_rule.specs.Kept.{farm_in};
ghost use Rattle.booking_rule.specs.Rule.{ShowsAmount};
ghost use Rattle.booking_rule.specs.Suits.{SuitsOnce};
ghost use Rattle.booking_rule.specs.Seats.{IsSeated, seats};
ghost use Rattle.booking_rule.specs.Ranges.{found_used};
ghost use Rattle.booking_core.specs.Kinds.{loaded, tried_burst, gave_burst, retracted_burst, tried_limit, gave_limit, retracted_limit, tried_host, gave_host, tried_claim, tried_drop, waiting_for, setup_for};
ghost use Rattle.booking_core.specs.Machine.{CanTake, MayGive, MayGiveRoom, IsIdle, IsFormedClaim, HasSeen};
ghost use Rattle.booking_table.specs.Seats.{view, IsSeatOf, IsSameSeat};
ghost use Rattle.booking_table.specs.Holds.{HasHold, claim_at};
ghost use Rattle.booking_table.specs.Steps.{FindsOwn};

use crate::doing::Doing;
use crate::holds::Hold;
use crate::table::{Seat, Table};
use booking_core::steps_keep_the_rule;
use farm_types::{Cores, HostNo, Kb, LimitNo, Slot, SubNo, Version};
use frame_words::HostWord;

// where the words stand, after the journal's
const FRAMES: usize = 1;

const AMOUNTS: usize = 65_537;

const HOSTS: usize = 131_073;

const SUBS: usize = 135_169;

const LIMITS: usize = 136_193;

impl Table {
    // A slot's frame word, as it was found. The cores of a slot that isn't free are a layer's.
    pub(crate) fn load_frame(&self, seat: &mut Seat, slot: Slot) -> u64
        requires table { IsSeatOf self.now seat.old }
        requires seated { IsSeated (view seat.old) }
        requires within { slot < 65536 }
        ensures same { IsSameSeat seat.old seat.new }
        ensures loaded { view seat.new ≡ loaded (view seat.old) (frame_place slot) result }
        ensures layer { ((frame_of result).phase == 0) ≡ false → IsBetween LEAST_CORES MOST_CORES (frame_of result).cores }
        ensures alone { IsAlone [] (view seat.old) → ShowsSlot (view seat.old) slot (frame_of result) × ((view seat.old).number ≡ None) }
    {
        steps_keep_the_rule();
        self.load(seat, slot.0 as usize + FRAMES, Doing::LoadFrame { slot })
    }

    // A slot's amount word, as it was found. The memory of a slot that the seat once found used is a layer's.
    pub(crate) fn load_amount(&self, seat: &mut Seat, slot: Slot) -> u64
        requires table { IsSeatOf self.now seat.old }
        requires seated { IsSeated (view seat.old) }
        requires within { slot < 65536 }
        ensures same { IsSameSeat seat.old seat.new }
        ensures loaded { view seat.new ≡ loaded (view seat.old) (amount_place slot) result }
        ensures layer { found_used slot (view seat.old).trail ≡ true → IsBetween LEAST_MEMORY MOST_MEMORY (amount_of result).memory }
        ensures alone { IsAlone [] (view seat.old) → ShowsAmount (stand_at (farm_in (view seat.old)) slot) (amount_of result) }
    {
        steps_keep_the_rule();
        self.load(seat, slot.0 as usize + AMOUNTS, Doing::LoadAmount { slot })
    }

    // What a host has free, as it was found.
    pub(crate) fn load_host(&self, seat: &mut Seat, host: HostNo) -> u64
        requires table { IsSeatOf self.now seat.old }
        requires seated { IsSeated (view seat.old) }
        requires within { host < 4096 }
        ensures same { IsSameSeat seat.old seat.new }
        ensures loaded { view seat.new ≡ loaded (view seat.old) (host_place host) result }
        ensures alone { IsAlone [] (view seat.old) → ShowsRoom (view seat.old) host (host_of result) }
    {
        steps_keep_the_rule();
        self.load(seat, usize::from(host.0) + HOSTS, Doing::LoadHost { host })
    }

    // A subscription's word, as it was found.
    pub(crate) fn load_sub(&self, seat: &mut Seat, sub: SubNo) -> u64
        requires table { IsSeatOf self.now seat.old }
        requires seated { IsSeated (view seat.old) }
        requires within { sub < 1024 }
        ensures same { IsSameSeat seat.old seat.new }
        ensures loaded { view seat.new ≡ loaded (view seat.old) (sub_place sub) result }
    {
        steps_keep_the_rule();
        self.load(seat, usize::from(sub.0) + SUBS, Doing::LoadSub { sub })
    }

    // A limit's word, as it was found.
    pub(crate) fn load_limit(&self, seat: &mut Seat, limit: LimitNo) -> u64
        requires table { IsSeatOf self.now seat.old }
        requires seated { IsSeated (view seat.old) }
        requires within { limit < 255 }
        ensures same { IsSameSeat seat.old seat.new }
        ensures loaded { view seat.new ≡ loaded (view seat.old) (limit_place limit) result }
    {
        steps_keep_the_rule();
        self.load(
            seat,
            usize::from(limit.0) + LIMITS,
            Doing::LoadLimit { limit },
        )
    }

    // Adds cores to what is booked of a subscription.
    pub(crate) fn add_booked(&self, seat: &mut Seat, sub: SubNo, cores: Cores) -> u64
        requires table { IsSeatOf self.now seat.old }
        requires free { CanTake (view seat.old) }
        requires amounts { (sub < 1024) × IsBetween LEAST_CORES MOST_CORES cores }
        ensures same { IsSameSeat seat.old seat.new }
        ensures tried { view seat.new ≡ tried_burst (view seat.old) sub cores result }
        ensures bound { (sub_of result).booked ≤ 4160000000 }
        ensures alone { IsAlone [] (view seat.old) → ShowsBurst (view seat.old) sub (sub_of result) }
    {
        steps_keep_the_rule();
        self.add(
            seat,
            usize::from(sub.0) + SUBS,
            u64::from(cores.0),
            Doing::TakeBurst { sub, cores },
        )
    }

    // Takes off cores that were booked and didn't fit.
    pub(crate) fn retract_booked(&self, seat: &mut Seat, sub: SubNo, cores: Cores) -> u64
        requires table { IsSeatOf self.now seat.old }
        requires seated { IsSeated (view seat.old) }
        requires within { sub < 1024 }
        requires asked { (view seat.old).ungranted ≡ Some (take_of sub cores) }
        ensures same { IsSameSeat seat.old seat.new }
        ensures retracted { view seat.new ≡ retracted_burst (view seat.old) sub cores result }
    {
        steps_keep_the_rule();
        self.take_off(
            seat,
            usize::from(sub.0) + SUBS,
            u64::from(cores.0),
            Doing::RetractBurst { sub, cores },
        )
    }

    // Takes off cores that were booked and fitted.
    pub(crate) fn give_booked(&self, seat: &mut Seat, sub: SubNo, cores: Cores) -> u64
        requires table { IsSeatOf self.now seat.old }
        requires may { MayGive (view seat.old) }
        requires within { sub < 1024 }
        requires held { holds same_take (take_of sub cores) (view seat.old).takes ≡ true }
        ensures same { IsSameSeat seat.old seat.new }
        ensures given { view seat.new ≡ gave_burst (view seat.old) sub cores result }
    {
        steps_keep_the_rule();
        self.take_off(
            seat,
            usize::from(sub.0) + SUBS,
            u64::from(cores.0),
            Doing::GiveBurst { sub, cores },
        )
    }

    // Adds 1 to the frames that run in a limit.
    pub(crate) fn add_running(&self, seat: &mut Seat, limit: LimitNo) -> u64
        requires table { IsSeatOf self.now seat.old }
        requires free { CanTake (view seat.old) }
        requires within { limit < 255 }
        ensures same { IsSameSeat seat.old seat.new }
        ensures tried { view seat.new ≡ tried_limit (view seat.old) limit result }
        ensures bound { (limit_of result).running ≤ 65600 }
        ensures alone { IsAlone [] (view seat.old) → ShowsLimit (view seat.old) limit (limit_of result) }
    {
        steps_keep_the_rule();
        self.add(
            seat,
            usize::from(limit.0) + LIMITS,
            1,
            Doing::TakeLimit { limit },
        )
    }

    // Takes off a place that was added and didn't fit.
    pub(crate) fn retract_running(&self, seat: &mut Seat, limit: LimitNo) -> u64
        requires table { IsSeatOf self.now seat.old }
        requires seated { IsSeated (view seat.old) }
        requires within { limit < 255 }
        requires asked { (view seat.old).ungranted_limit ≡ Some limit }
        ensures same { IsSameSeat seat.old seat.new }
        ensures retracted { view seat.new ≡ retracted_limit (view seat.old) limit result }
    {
        steps_keep_the_rule();
        self.take_off(
            seat,
            usize::from(limit.0) + LIMITS,
            1,
            Doing::RetractLimit { limit },
        )
    }

    // Takes off a place that was added and fitted.
    pub(crate) fn give_running(&self, seat: &mut Seat, limit: LimitNo) -> u64
        requires table { IsSeatOf self.now seat.old }
        requires may { MayGive (view seat.old) }
        requires within { limit < 255 }
        requires held { holds same_limit limit (view seat.old).limits ≡ true }
        ensures same { IsSameSeat seat.old seat.new }
        ensures given { view seat.new ≡ gave_limit (view seat.old) limit result }
    {
        steps_keep_the_rule();
        self.take_off(
            seat,
            usize::from(limit.0) + LIMITS,
            1,
            Doing::GiveLimit { limit },
        )
    }

    // Takes amounts off what a host has free, where that is still the word that was found.
    pub(crate) fn take_free(
        &self,
        seat: &mut Seat,
        host: HostNo,
        cores: Cores,
        memory: Kb,
        free: u64,
    ) -> u64
        requires table { IsSeatOf self.now seat.old }
        requires seated { IsSeated (view seat.old) }
        requires within { host < 4096 }
        requires fits { (cores ≤ (host_of free).cores) × (memory ≤ (host_of free).memory) }
        ensures same { IsSameSeat seat.old seat.new }
        ensures tried { view seat.new ≡ tried_host (view seat.old) host cores memory free result }
        ensures alone { IsAlone [] (view seat.old) → ShowsRoom (view seat.old) host (host_of result) }
    {
        steps_keep_the_rule();
        let HostWord {
            cores: free_cores,
            memory: free_memory,
        } = HostWord::unpack(free);
        let less = HostWord {
            cores: Cores(free_cores.0 - cores.0),
            memory: Kb(free_memory.0 - memory.0),
        };
        let doing = Doing::TakeRoom {
            host,
            cores,
            memory,
            free,
        };
        self.exchange(seat, usize::from(host.0) + HOSTS, free, less.pack(), doing)
    }

    // Gives amounts back to what a host has free.
    pub(crate) fn give_free(&self, seat: &mut Seat, host: HostNo, cores: Cores, memory: Kb) -> u64
        requires table { IsSeatOf self.now seat.old }
        requires may { MayGive (view seat.old) }
        requires within { (host < 4096) × (cores ≤ MOST_CORES) × (memory ≤ MOST_MEMORY) }
        requires held { holds same_room (room_of host cores memory) (view seat.old).rooms ≡ true }
        requires room { MayGiveRoom (view seat.old) host }
        ensures same { IsSameSeat seat.old seat.new }
        ensures given { view seat.new ≡ gave_host (view seat.old) host cores memory result }
    {
        steps_keep_the_rule();
        let amounts = HostWord { cores, memory };
        let doing = Doing::GiveRoom {
            host,
            cores,
            memory,
        };
        self.add(seat, usize::from(host.0) + HOSTS, amounts.pack(), doing)
    }

    // A waiting frame's word becomes that of a claim, where it is still the one that was seen.
    pub(crate) fn win_slot(
        &self,
        seat: &mut Seat,
        slot: Slot,
        version: Version,
        hold: &Hold,
        old: u64,
        new: u64,
    ) -> u64
        requires table { IsSeatOf self.now seat.old }
        requires may { (seats (view seat.old) ≡ 1) × IsIdle (view seat.old) }
        requires formed { IsFormedClaim (claim_at slot version hold.now) }
        requires held { HasHold (view seat.old) hold.now }
        requires seen { HasSeen (view seat.old) (claim_at slot version hold.now) }
        requires suits { SuitsOnce (farm_of (view seat.old).opening) (view seat.old).journal (claim_at slot version hold.now) }
        requires old_word { old ≡ frame_bits (waiting_for (claim_at slot version hold.now)) }
        requires new_word { new ≡ frame_bits (setup_for (claim_at slot version hold.now)) }
        ensures same { IsSameSeat seat.old seat.new }
        ensures tried { view seat.new ≡ tried_claim (view seat.old) (claim_at slot version hold.now) result }
        ensures alone { IsAlone [] (view seat.old) → ShowsSlot (view seat.old) slot (frame_of result) }
    {
        steps_keep_the_rule();
        let doing = Doing::Claims {
            slot,
            version,
            host: hold.host,
            sub: hold.burst.sub,
            cores: hold.burst.cores,
            limit: hold.burst.limit,
            memory: hold.memory,
        };
        self.exchange(seat, slot.0 as usize + FRAMES, old, new, doing)
    }

    // A claim's word becomes that of the waiting frame, where it is still the claim's.
    pub(crate) fn leave_slot(
        &self,
        seat: &mut Seat,
        slot: Slot,
        version: Version,
        hold: &Hold,
        old: u64,
        new: u64,
    ) -> u64
        requires table { IsSeatOf self.now seat.old }
        requires seated { IsSeated (view seat.old) }
        requires formed { IsFormedClaim (claim_at slot version hold.now) }
        requires held { holds same_claim (claim_at slot version hold.now) (view seat.old).claims ≡ true }
        requires old_word { old ≡ frame_bits (setup_for (claim_at slot version hold.now)) }
        requires new_word { new ≡ frame_bits (waiting_for (claim_at slot version hold.now)) }
        ensures same { IsSameSeat seat.old seat.new }
        ensures tried { view seat.new ≡ tried_drop (view seat.old) (claim_at slot version hold.now) result }
        ensures alone { FindsOwn (view seat.old) (claim_at slot version hold.now) (frame_of result) }
    {
        steps_keep_the_rule();
        let doing = Doing::Drops {
            slot,
            version,
            host: hold.host,
            sub: hold.burst.sub,
            cores: hold.burst.cores,
            limit: hold.burst.limit,
            memory: hold.memory,
        };
        self.exchange(seat, slot.0 as usize + FRAMES, old, new, doing)
    }
}
