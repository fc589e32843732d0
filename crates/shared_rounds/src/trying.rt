//! One candidate of a round: its steps, and the gate between them.

ghost use Rattle.std.specs.Prelude.{◌≡◌, [], IfOk, MatchResult};
ghost use Rattle.farm_types.specs.Dispatch.{book_entry};
ghost use Rattle.booking_table.specs.declared.seen.Seen.{Seen};
ghost use Rattle.booking_table.specs.Holds.{HasClaim};
ghost use Rattle.shared_bot.specs.Passes.{IsFree};
ghost use Rattle.shared_rounds.specs.Holding.{GoesJust, HoldsJust, IsDue};
ghost use Rattle.shared_rounds.specs.Rounds.{Gains, Grows};
ghost use Rattle.shared_rounds.specs.Steps.{HasFrame, IsLost, claim_for};
ghost use Rattle.shared_rounds.specs.Tries.{Tries};

use crate::claiming::{look_for, take_cores};
use crate::confirming::confirm_beside;
use crate::gate::{Gate, Point};
use booking_table::{Claim, Table};
use farm_keeper::Keeper;
use farm_types::Candidate;
use shared_bot::booking_recorder::{BookResult, Pass};
use shared_bot::{Bot, Opened};
use std::alloc::Global;
use std::sync::Wait;

/// Books the candidate, or tells which step was lost.
pub(crate) fn try_candidate<K: Keeper, N: Opened, G: Gate, R: Wait>(
    rt: &R,
    alloc: Global,
    bot: &Bot<K, N>,
    pass: &mut Pass<N>,
    candidate: &Candidate,
    moment: u64,
    gate: &mut G,
) -> BookResult
    requires free { IsFree N.opening pass.old.view }
    requires due { IsDue pass.old.view candidate.now }
    ensures free { IsFree N.opening pass.new.view }
    ensures grows { Grows pass.old.view pass.new.view }
    ensures tries { Tries candidate.now moment pass.old result pass.new }
    ensures gains { Gains (book_entry candidate.now moment) pass.old.view result pass.new.view }
{
    match claim_candidate(&bot.table, pass, candidate, gate) {
        Ok(claim) => {
            gate.pass(Point::Claimed);
            confirm_beside(rt, alloc, bot, pass, claim, moment)
        }
        Err(lost) => lost,
    }
}

// Claims the candidate's frame, with all that it needs.
fn claim_candidate<N: Opened, G: Gate>(
    table: &Table,
    pass: &mut Pass<N>,
    candidate: &Candidate,
    gate: &mut G,
) -> Result<Claim, BookResult>
    requires table { table.now ≡ N.table }
    requires due { IsDue pass.old.view candidate.now }
    requires holds { HoldsJust [] [] [] pass.old.view }
    ensures faults { pass.new.faults ≡ pass.old.faults }
    ensures goes { GoesJust pass.old.view [] [] [] pass.new.view }
    ensures has { IfOk result (HasClaim pass.new.view) }
    ensures answer { MatchResult result
        (λ claim. (seen : Seen) × (claim ≡ claim_for candidate.now seen) × HasFrame candidate.now pass.old.view seen pass.new.view)
        (λ lost. IsLost candidate.now pass.old.view lost pass.new.view) }
{
    match look_for(table, pass, candidate) {
        Ok(seen) => {
            gate.pass(Point::Looked);
            take_cores(table, pass, candidate, seen)
        }
        Err(lost) => Err(lost),
    }
}
