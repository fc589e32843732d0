//! A round of bookings beside others.

ghost use Rattle.std.specs.Prelude.{◌≡◌, ◌≤◌, ◌+◌, [], length, min};
ghost use Rattle.std.specs.Vec.{vec_capacity};
ghost use Rattle.farm_types.specs.declared.dispatch.Cut.TheVariants as cut;
ghost use Rattle.farm_types.specs.declared.limits.TheConstants.{BOOKINGS_EACH, CANDIDATES_EACH};
ghost use Rattle.fault_counts.specs.Counts.{HasRisen, last_count};
ghost use Rattle.dispatcher.specs.Rounds.{cut_of};
ghost use Rattle.shared_bot.specs.Passes.{IsFree};
ghost use Rattle.shared_rounds.specs.Holding.{AreDue};
ghost use Rattle.shared_rounds.specs.Rounds.{Grows, HasBooked, IsRoundBeside, Walks};

use crate::gate::Gate;
use crate::planning::take_plan;
use crate::round::{Outcome, Round};
use crate::trying::try_candidate;
use dispatcher::left_after;
use farm_keeper::Keeper;
use farm_types::{BOOKINGS_EACH, CANDIDATES_EACH, Candidate, Cut, HostNo, Items};
use shared_bot::booking_recorder::Pass;
use shared_bot::recorder::RecordFault;
use shared_bot::{Bot, Opened};
use std::alloc::Global;
use std::sync::Wait;

/// Books frames on the host, beside other dispatchers: the plan is taken under the lock, and each of its candidates is tried in turn with the words that all
/// share, until 12 are booked. Where the store fails at a booking, or memory runs out, the round ends with that candidate.
pub fn book_round<K: Keeper, N: Opened, G: Gate, R: Wait>(
    rt: &R,
    alloc: Global,
    bot: &Bot<K, N>,
    pass: &mut Pass<N>,
    host: HostNo,
    moment: u64,
    gate: &mut G,
) -> Round
    requires free { IsFree N.opening pass.old.view }
    ensures free { IsFree N.opening pass.new.view }
    ensures round { IsRoundBeside pass.old host moment result pass.new }
    ensures grows { Grows pass.old.view pass.new.view }
    ensures booked { HasBooked pass.old moment result.outcomes pass.new }
    ensures cut { result.cut ≡ cut.Store → HasRisen pass.old.faults pass.new.faults }
{
    let Ok(candidates) = take_plan(rt, alloc, bot, pass, host) else {
        return unplanned(alloc);
    };
    let Ok(outcomes) = Vec::with_capacity(alloc, CANDIDATES_EACH as usize) else {
        return unplanned(alloc);
    };
    walk(
        rt,
        alloc,
        bot,
        pass,
        moment,
        gate,
        candidates.as_slice(),
        outcomes,
    )
}

// The round for which memory was short.
fn unplanned(alloc: Global) -> Round
    ensures none { result.outcomes ≡ [] }
    ensures cut { result.cut ≡ cut.Memory }
{
    Round {
        outcomes: Items::new(alloc),
        cut: Cut::Memory,
    }
}

// The candidates in turn, until so many are booked.
fn walk<K: Keeper, N: Opened, G: Gate, R: Wait>(
    rt: &R,
    alloc: Global,
    bot: &Bot<K, N>,
    pass: &mut Pass<N>,
    moment: u64,
    gate: &mut G,
    candidates: &[Candidate],
    outcomes: Vec<Outcome>,
) -> Round
    requires free { IsFree N.opening pass.old.view }
    requires due { AreDue pass.old.view candidates.now }
    requires none { outcomes.items ≡ [] }
    requires room { length candidates.now ≤ vec_capacity outcomes }
    ensures free { IsFree N.opening pass.new.view }
    ensures walks { Walks BOOKINGS_EACH moment pass.old candidates.now result.outcomes result.cut pass.new }
    ensures grows { Grows pass.old.view pass.new.view }
    ensures booked { HasBooked pass.old moment result.outcomes pass.new }
    ensures cut { result.cut ≡ cut.Store → min (pass.old.faults + 1) last_count ≤ pass.new.faults }
{
    let mut outcomes = outcomes;
    let mut left = BOOKINGS_EACH;
    for candidate in candidates {
        if left == 0 {
            return whole(outcomes);
        }
        let result = try_candidate(rt, alloc, bot, pass, candidate, moment, gate);
        outcomes.push_reserved(Outcome {
            candidate: *candidate,
            result,
        });
        left = match left_after(left, &result) {
            Ok(left) => left,
            Err(fault) => return cut_short(outcomes, fault),
        };
    }
    whole(outcomes)
}

// The round that came to its end.
fn whole(outcomes: Vec<Outcome>) -> Round
    ensures outcomes { result.outcomes ≡ outcomes.items }
    ensures cut { result.cut ≡ cut.Whole }
{
    Round {
        outcomes: Items::from_vec(outcomes),
        cut: Cut::Whole,
    }
}

// The round that a fault ended.
fn cut_short(outcomes: Vec<Outcome>, fault: RecordFault) -> Round
    ensures outcomes { result.outcomes ≡ outcomes.items }
    ensures cut { result.cut ≡ cut_of fault }
{
    let cut = match fault {
        RecordFault::Store => Cut::Store,
        RecordFault::NoMemory => Cut::Memory,
    };
    Round {
        outcomes: Items::from_vec(outcomes),
        cut,
    }
}
