//! The steps of a dispatcher: each is the table's, with the seat of a pass. What is asked of a seat beside, a pass always has.

ghost use Rattle.std.specs.Prelude.{◌≡◌, ◌<◌, ◌^◌, ℕ, None, MatchResult};
ghost use Rattle.farm_types.specs.Limits.{IsBetween};
ghost use Rattle.farm_types.specs.declared.limits.TheConstants.{LEAST_CORES, LEAST_MEMORY, MOST_CORES, MOST_MEMORY};
ghost use Rattle.booking_core.specs.Kinds.{gave_burst};
ghost use Rattle.booking_rule.specs.Looks.{HasLook};
ghost use Rattle.booking_table.specs.Calls.{IsBurstFull, IsBurstTaken, IsClaimed, IsDropped, IsLimitFull, IsLimitTaken, IsRoomTaken, IsSeenFor, IsShort};
ghost use Rattle.booking_table.specs.Calls.{IsTaken, SuitsAt, claim_by, hold_given, look_by, looked, place_given, seen_of};
ghost use Rattle.booking_table.specs.Holds.{HasBurst, HasClaim, HasHold, IsBurst, IsLimit, burst_hold, hold_of, with_place, without_place};

use crate::naming::Naming;
use crate::pass::Pass;
use booking_table::{
    BurstFull, BurstHold, Claim, Dropped, Hold, HostShort, LimitFull, Seen, Table, Taken,
};
use farm_types::{Cores, HostNo, Kb, LimitNo, Slot, SubNo};

impl<N: Naming> Pass<N> {
    /// Looks at a slot's two words. Of a waiting frame the amounts are its layer's, and the pass has the look that a claim asks for, below the last version.
    pub fn look(&mut self, table: &Table, slot: Slot) -> Seen
        requires table { table.now ≡ N.table }
        requires within { slot < 65536 }
        ensures looked { (frame amount : ℕ) × (result ≡ seen_of slot frame amount) × (self.new.view ≡ looked self.old.view slot frame amount) }
        ensures cores { result.phase ≡ 1 → IsBetween LEAST_CORES MOST_CORES result.cores }
        ensures memory { result.phase ≡ 1 → IsBetween LEAST_MEMORY MOST_MEMORY result.memory }
        ensures look { result.phase ≡ 1 → result.version < 16777215 → HasLook self.new.view.trail (look_by result) }
        ensures fits { (result.phase < 16) × (result.version < 2 ^ 24) × (result.cores < 2 ^ 20) × IsLimit result.limit }
        ensures faults { self.new.faults ≡ self.old.faults }
    {
        table.look(&mut self.seat, slot)
    }

    /// Adds cores to what is booked of a subscription, and takes them off again where they are more than its burst then.
    pub fn take_burst(
        &mut self,
        table: &Table,
        sub: SubNo,
        cores: Cores,
    ) -> Result<BurstHold, BurstFull>
        requires table { table.now ≡ N.table }
        requires amounts { (sub < 1024) × IsBetween LEAST_CORES MOST_CORES cores }
        ensures answer { MatchResult result
            (λ b. (b ≡ burst_hold sub cores) × IsBurstTaken self.old.view sub cores self.new.view)
            (λ full. IsBurstFull self.old.view sub cores full self.new.view) }
        ensures faults { self.new.faults ≡ self.old.faults }
    {
        table.take_burst(&mut self.seat, sub, cores)
    }

    /// Adds 1 to the frames that run in a limit, and takes it off again where these are more than may run then.
    pub fn take_limit(
        &mut self,
        table: &Table,
        burst: BurstHold,
        limit: LimitNo,
    ) -> Result<BurstHold, (BurstHold, LimitFull)>
        requires table { table.now ≡ N.table }
        requires within { limit < 255 }
        requires none { burst.limit ≡ None }
        ensures answer { MatchResult result
            (λ b. (b ≡ with_place burst limit) × IsLimitTaken self.old.view limit self.new.view)
            (λ e. (e.0 ≡ burst) × IsLimitFull self.old.view limit e.1 self.new.view) }
        ensures faults { self.new.faults ≡ self.old.faults }
    {
        table.take_limit(&mut self.seat, burst, limit)
    }

    /// Takes room on a host for cores that are held, by a look at what it has free and one exchange.
    pub fn take_host(
        &mut self,
        table: &Table,
        burst: BurstHold,
        host: HostNo,
        memory: Kb,
    ) -> Result<Hold, (BurstHold, HostNo, HostShort)>
        requires table { table.now ≡ N.table }
        requires burst { IsBurst burst }
        requires within { (host < 4096) × IsBetween LEAST_MEMORY MOST_MEMORY memory }
        ensures answer { MatchResult result
            (λ h. (h ≡ hold_of burst host memory) × IsRoomTaken self.old.view host burst.cores memory self.new.view)
            (λ e. (e.0 ≡ burst) × (e.1 ≡ host) × IsShort self.old.view host burst.cores memory e.2 self.new.view) }
        ensures faults { self.new.faults ≡ self.old.faults }
    {
        table.take_host(&mut self.seat, burst, host, memory)
    }

    /// Claims a frame that was seen waiting, with what is held for it.
    pub fn claim(&mut self, table: &Table, hold: Hold, seen: Seen) -> Result<Claim, (Hold, Taken)>
        requires table { table.now ≡ N.table }
        requires held { HasHold self.old.view hold }
        requires looked { HasLook self.old.view.trail (look_by seen) }
        requires seen { IsSeenFor seen hold }
        requires suits { SuitsAt self.old.view seen.slot seen.version hold.host hold.burst.sub }
        ensures answer { MatchResult result
            (λ c. (c ≡ claim_by hold seen) × IsClaimed self.old.view (claim_by hold seen) self.new.view)
            (λ e. (e.0 ≡ hold) × IsTaken self.old.view (claim_by hold seen) e.1 self.new.view) }
        ensures faults { self.new.faults ≡ self.old.faults }
    {
        table.claim(&mut self.seat, hold, seen)
    }

    /// Gives the place in its limit back, where it has one.
    pub fn give_limit(&mut self, table: &Table, burst: BurstHold) -> BurstHold
        requires table { table.now ≡ N.table }
        requires held { HasBurst self.old.view burst }
        ensures hold { result ≡ without_place burst }
        ensures given { (place : ℕ) × (self.new.view ≡ place_given self.old.view burst.limit place) }
        ensures faults { self.new.faults ≡ self.old.faults }
    {
        table.give_limit(&mut self.seat, burst)
    }

    /// Gives the place in its limit back, where it has one, and then its cores.
    pub fn give_burst(&mut self, table: &Table, burst: BurstHold)
        requires table { table.now ≡ N.table }
        requires held { HasBurst self.old.view burst }
        ensures given { (place found : ℕ) × (self.new.view ≡ gave_burst (place_given self.old.view burst.limit place) burst.sub burst.cores found) }
        ensures faults { self.new.faults ≡ self.old.faults }
    {
        table.give_burst(&mut self.seat, burst);
    }

    /// Gives all of a hold back: the host's room, the place in the limit, the cores.
    pub fn give_back(&mut self, table: &Table, hold: Hold)
        requires table { table.now ≡ N.table }
        requires held { HasHold self.old.view hold }
        ensures given { (room place found : ℕ) × (self.new.view ≡ hold_given self.old.view hold room place found) }
        ensures faults { self.new.faults ≡ self.old.faults }
    {
        table.give_back(&mut self.seat, hold);
    }

    /// Lets a claim go that isn't booked: the frame waits again, and all that was held for it goes back, unless the recorder has ended the claim.
    pub fn drop_claim(&mut self, table: &Table, claim: Claim) -> Dropped
        requires table { table.now ≡ N.table }
        requires held { HasClaim self.old.view claim }
        ensures answer { IsDropped self.old.view claim result self.new.view }
        ensures faults { self.new.faults ≡ self.old.faults }
    {
        table.drop_claim(&mut self.seat, claim)
    }
}
