//! The steps of a candidate up to its claim, in their order. One that is lost gives back all that was held before it.

ghost use Rattle.std.specs.Prelude.{◌≡◌, ◌↔◌, ◌<◌, ◌∷◌, [], IfOk, IsTrue, MatchResult, Some};
ghost use Rattle.booking_rule.specs.declared.view.View.{View};
ghost use Rattle.booking_rule.specs.Views.{room_of, take_of};
ghost use Rattle.booking_table.specs.Holds.{HasClaim, burst_hold};
ghost use Rattle.shared_bot.specs.booking_recorder.specs.Alone.{burst_for, places_in};
ghost use Rattle.shared_rounds.specs.Holding.{GoesJust, HoldsJust, IsDue, IsWanted};
ghost use Rattle.shared_rounds.specs.Steps.{HasCores, HasFrame, HasPlace, HasRoom, HasSeen, IsLost, claim_for, held_for, word_of};

use booking_table::{BurstHold, Claim, Hold, Seen, Table};
use farm_types::{Candidate, HostNo, LimitNo, Version};
use frame_words::{FrameWord, WAITING};
use shared_bot::Opened;
use shared_bot::booking_recorder::{BookResult, Pass};

/// Looks at the candidate's slot, whose frame is to wait at its version.
pub(crate) fn look_for<N: Opened>(
    table: &Table,
    pass: &mut Pass<N>,
    candidate: &Candidate,
) -> Result<Seen, BookResult>
    requires table { table.now ≡ N.table }
    requires due { IsDue pass.old.view candidate.now }
    requires holds { HoldsJust [] [] [] pass.old.view }
    ensures faults { pass.new.faults ≡ pass.old.faults }
    ensures goes { GoesJust pass.old.view [] [] [] pass.new.view }
    ensures wanted { IfOk result (IsWanted pass.new.view candidate.now) }
    ensures answer { MatchResult result
        (λ seen. HasSeen candidate.now pass.old.view seen pass.new.view)
        (λ lost. IsLost candidate.now pass.old.view lost pass.new.view) }
{
    let seen = pass.look(table, candidate.slot);
    if is_waiting_at(&seen, candidate.version) {
        return Ok(seen);
    }
    Err(BookResult::Taken {
        found: found_word(&seen),
    })
}

// Whether the frame was seen waiting at that version.
fn is_waiting_at(seen: &Seen, version: Version) -> bool
    ensures { IsTrue result ↔ ((seen.now.phase ≡ 1) × (seen.now.version ≡ version)) }
{
    seen.phase == WAITING && seen.version == version
}

// The word of a slot that was seen, with host 0.
fn found_word(seen: &Seen) -> u64
    requires fits { (seen.now.phase < 16) × (seen.now.version < 16777216) × (seen.now.cores < 1048576) }
    ensures word { result ≡ word_of seen.now }
{
    let word = FrameWord {
        phase: seen.phase,
        version: seen.version,
        host: HostNo(0),
        cores: seen.cores,
    };
    word.pack()
}

/// Claims the frame that was seen for the candidate: first the layer's cores are taken of the subscription.
pub(crate) fn take_cores<N: Opened>(
    table: &Table,
    pass: &mut Pass<N>,
    candidate: &Candidate,
    seen: Seen,
) -> Result<Claim, BookResult>
    requires table { table.now ≡ N.table }
    requires wanted { IsWanted pass.old.view candidate.now seen }
    requires holds { HoldsJust [] [] [] pass.old.view }
    ensures faults { pass.new.faults ≡ pass.old.faults }
    ensures goes { GoesJust pass.old.view [] [] [] pass.new.view }
    ensures has { IfOk result (HasClaim pass.new.view) }
    ensures answer { (v : View) → HasSeen candidate.now v seen pass.old.view → MatchResult result
        (λ claim. (claim ≡ claim_for candidate.now seen) × HasFrame candidate.now v seen pass.new.view)
        (λ lost. IsLost candidate.now v lost pass.new.view) }
{
    match pass.take_burst(table, candidate.sub, seen.cores) {
        Ok(burst) => take_place(table, pass, candidate, seen, burst),
        Err(why) => Err(BookResult::Burst { why }),
    }
}

// .. then a place in the layer's limit, where it has one.
fn take_place<N: Opened>(
    table: &Table,
    pass: &mut Pass<N>,
    candidate: &Candidate,
    seen: Seen,
    burst: BurstHold,
) -> Result<Claim, BookResult>
    requires table { table.now ≡ N.table }
    requires wanted { IsWanted pass.old.view candidate.now seen }
    requires holds { HoldsJust (take_of candidate.now.sub seen.cores ∷ []) [] [] pass.old.view }
    requires burst { burst ≡ burst_hold candidate.now.sub seen.cores }
    ensures faults { pass.new.faults ≡ pass.old.faults }
    ensures goes { GoesJust pass.old.view [] [] [] pass.new.view }
    ensures has { IfOk result (HasClaim pass.new.view) }
    ensures answer { (v : View) → HasCores candidate.now v seen pass.old.view → MatchResult result
        (λ claim. (claim ≡ claim_for candidate.now seen) × HasFrame candidate.now v seen pass.new.view)
        (λ lost. IsLost candidate.now v lost pass.new.view) }
{
    match seen.limit {
        None => take_room(table, pass, candidate, seen, burst),
        Some(limit) => take_place_in(table, pass, candidate, seen, burst, limit),
    }
}

// .. in that limit; else the cores go back.
fn take_place_in<N: Opened>(
    table: &Table,
    pass: &mut Pass<N>,
    candidate: &Candidate,
    seen: Seen,
    burst: BurstHold,
    limit: LimitNo,
) -> Result<Claim, BookResult>
    requires table { table.now ≡ N.table }
    requires wanted { IsWanted pass.old.view candidate.now seen }
    requires limit { seen.limit ≡ Some limit }
    requires holds { HoldsJust (take_of candidate.now.sub seen.cores ∷ []) [] [] pass.old.view }
    requires burst { burst ≡ burst_hold candidate.now.sub seen.cores }
    ensures faults { pass.new.faults ≡ pass.old.faults }
    ensures goes { GoesJust pass.old.view [] [] [] pass.new.view }
    ensures has { IfOk result (HasClaim pass.new.view) }
    ensures answer { (v : View) → HasCores candidate.now v seen pass.old.view → MatchResult result
        (λ claim. (claim ≡ claim_for candidate.now seen) × HasFrame candidate.now v seen pass.new.view)
        (λ lost. IsLost candidate.now v lost pass.new.view) }
{
    match pass.take_limit(table, burst, limit) {
        Ok(burst) => take_room(table, pass, candidate, seen, burst),
        Err((burst, why)) => {
            pass.give_burst(table, burst);
            Err(BookResult::Limit { why })
        }
    }
}

// .. then room on the host; else the place in the limit and the cores go back.
fn take_room<N: Opened>(
    table: &Table,
    pass: &mut Pass<N>,
    candidate: &Candidate,
    seen: Seen,
    burst: BurstHold,
) -> Result<Claim, BookResult>
    requires table { table.now ≡ N.table }
    requires wanted { IsWanted pass.old.view candidate.now seen }
    requires holds { HoldsJust (take_of candidate.now.sub seen.cores ∷ []) (places_in seen.limit) [] pass.old.view }
    requires burst { burst ≡ burst_for candidate.now.sub seen }
    ensures faults { pass.new.faults ≡ pass.old.faults }
    ensures goes { GoesJust pass.old.view [] [] [] pass.new.view }
    ensures has { IfOk result (HasClaim pass.new.view) }
    ensures answer { (v : View) → HasPlace candidate.now v seen pass.old.view → MatchResult result
        (λ claim. (claim ≡ claim_for candidate.now seen) × HasFrame candidate.now v seen pass.new.view)
        (λ lost. IsLost candidate.now v lost pass.new.view) }
{
    match pass.take_host(table, burst, candidate.host, seen.memory) {
        Ok(hold) => take_frame(table, pass, candidate, seen, hold),
        Err((burst, _host, why)) => {
            pass.give_burst(table, burst);
            Err(BookResult::Host { why })
        }
    }
}

// .. and then the frame; else all that was held goes back.
fn take_frame<N: Opened>(
    table: &Table,
    pass: &mut Pass<N>,
    candidate: &Candidate,
    seen: Seen,
    hold: Hold,
) -> Result<Claim, BookResult>
    requires table { table.now ≡ N.table }
    requires wanted { IsWanted pass.old.view candidate.now seen }
    requires holds { HoldsJust (take_of candidate.now.sub seen.cores ∷ []) (places_in seen.limit)
        (room_of candidate.now.host seen.cores seen.memory ∷ []) pass.old.view }
    requires hold { hold ≡ held_for candidate.now seen }
    ensures faults { pass.new.faults ≡ pass.old.faults }
    ensures goes { GoesJust pass.old.view [] [] [] pass.new.view }
    ensures has { IfOk result (HasClaim pass.new.view) }
    ensures answer { (v : View) → HasRoom candidate.now v seen pass.old.view → MatchResult result
        (λ claim. (claim ≡ claim_for candidate.now seen) × HasFrame candidate.now v seen pass.new.view)
        (λ lost. IsLost candidate.now v lost pass.new.view) }
{
    let _candidate = candidate;
    match pass.claim(table, hold, seen) {
        Ok(claim) => Ok(claim),
        Err((hold, taken)) => {
            pass.give_back(table, hold);
            Err(BookResult::Taken { found: taken.found })
        }
    }
}
