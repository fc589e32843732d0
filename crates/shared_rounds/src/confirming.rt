//! A claim is booked under the lock, or let go.

ghost use Rattle.std.specs.Prelude.{◌≡◌, IfErr, MatchResult};
ghost use Rattle.booking_table.specs.Holds.{HasClaim};
ghost use Rattle.shared_bot.specs.booking_recorder.specs.Claims.{entry_for};
ghost use Rattle.shared_bot.specs.Passes.{IsFree, IsTaken};
ghost use Rattle.shared_rounds.specs.Rounds.{Gains, Grows};
ghost use Rattle.shared_rounds.specs.Tries.{Confirms, IsBooked, IsUnbooked};

use booking_table::{Claim, Table};
use farm_keeper::Keeper;
use farm_types::ProcRow;
use shared_bot::booking_recorder::{BookResult, ConfirmRefusal, Pass, Recorder};
use shared_bot::{Bot, Locked, Opened, catch_up, notice};
use std::alloc::Global;
use std::sync::Wait;

/// Books the claim; where that can't be, it is let go, with all that was held for it.
pub(crate) fn confirm_beside<K: Keeper, N: Opened, R: Wait>(
    rt: &R,
    alloc: Global,
    bot: &Bot<K, N>,
    pass: &mut Pass<N>,
    claim: Claim,
    moment: u64,
) -> BookResult
    requires free { IsFree N.opening pass.old.view }
    requires has { HasClaim pass.old.view claim }
    ensures free { IsFree N.opening pass.new.view }
    ensures grows { Grows pass.old.view pass.new.view }
    ensures confirms { Confirms claim moment pass.old result pass.new }
    ensures gains { Gains (entry_for claim moment) pass.old.view result pass.new.view }
{
    match confirm_locked(rt, alloc, bot, pass, claim, moment) {
        Ok(row) => BookResult::Booked { row },
        Err((claim, why)) => {
            pass.drop_claim(&bot.table, claim);
            BookResult::Confirm { why }
        }
    }
}

// Books the claim under the lock, or hands it back.
fn confirm_locked<K: Keeper, N: Opened, R: Wait>(
    rt: &R,
    alloc: Global,
    bot: &Bot<K, N>,
    pass: &mut Pass<N>,
    claim: Claim,
    moment: u64,
) -> Result<ProcRow, (Claim, ConfirmRefusal)>
    requires free { IsFree N.opening pass.old.view }
    requires has { HasClaim pass.old.view claim }
    ensures free { IsFree N.opening pass.new.view }
    ensures grows { Grows pass.old.view pass.new.view }
    ensures has { IfErr result (λ left. HasClaim pass.new.view left.0) }
    ensures answer { MatchResult result
        (λ row. IsBooked claim moment row pass.old pass.new)
        (λ left. (left.0 ≡ claim) × IsUnbooked claim left.1 pass.old pass.new) }
{
    let mut held = bot.hold(rt);
    confirm_held(alloc, &bot.table, &mut held, pass, claim, moment)
}

fn confirm_held<K: Keeper, N: Opened>(
    alloc: Global,
    table: &Table,
    held: &mut Locked<K, N>,
    pass: &mut Pass<N>,
    claim: Claim,
    moment: u64,
) -> Result<ProcRow, (Claim, ConfirmRefusal)>
    requires table { table.now ≡ N.table }
    requires free { IsFree N.opening pass.old.view }
    requires has { HasClaim pass.old.view claim }
    ensures free { IsFree N.opening pass.new.view }
    ensures grows { Grows pass.old.view pass.new.view }
    ensures has { IfErr result (λ left. HasClaim pass.new.view left.0) }
    ensures answer { MatchResult result
        (λ row. IsBooked claim moment row pass.old pass.new)
        (λ left. (left.0 ≡ claim) × IsUnbooked claim left.1 pass.old pass.new) }
{
    confirm(alloc, table, &mut held.recorder, pass, claim, moment)
}

// .. by the recorder, and tells the pass.
fn confirm<K: Keeper, N: Opened>(
    alloc: Global,
    table: &Table,
    recorder: &mut Recorder<K, N>,
    pass: &mut Pass<N>,
    claim: Claim,
    moment: u64,
) -> Result<ProcRow, (Claim, ConfirmRefusal)>
    requires table { table.now ≡ N.table }
    requires taken { IsTaken recorder.old }
    requires opening { recorder.old.view.opening ≡ N.opening }
    requires free { IsFree N.opening pass.old.view }
    requires has { HasClaim pass.old.view claim }
    ensures taken { IsTaken recorder.new }
    ensures opening { recorder.new.view.opening ≡ N.opening }
    ensures free { IsFree N.opening pass.new.view }
    ensures grows { Grows pass.old.view pass.new.view }
    ensures has { IfErr result (λ left. HasClaim pass.new.view left.0) }
    ensures answer { MatchResult result
        (λ row. IsBooked claim moment row pass.old pass.new)
        (λ left. (left.0 ≡ claim) × IsUnbooked claim left.1 pass.old pass.new) }
{
    notice(table, recorder, pass);
    let booked = recorder.confirm(alloc, table, claim, moment);
    catch_up(table, recorder, pass);
    booked
}
