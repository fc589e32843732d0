//! A dispatcher's calls, each with what the seat has then. One that isn't possible isn't made.

ghost use Rattle.std.specs.Prelude.{◌≡◌, true};
ghost use Rattle.booking_cases.specs.Working.{IsClaimable, IsFor, IsWorking};

use crate::held::{Held, HeldRoom, burst_of, claim_of, held_burst, held_claim, held_room, hold_of};
use crate::plan::{Plan, sub_for};
use crate::said::Said;
use crate::step::Call;
use booking_table::{Seat, Seen, Table, looks_stay_in_the_trail};
use farm_types::{LAST_SLOT, LAST_VERSION, MOST_LIMITS, Slot};
use frame_words::WAITING;

/// What a seat saw last, where that is a waiting frame that can be claimed, and what it holds.
#[derive(Clone, Copy, Debug, PartialEq, Eq)]
pub struct Work {
    pub seen: Option<Seen>,
    pub held: Held,
}

/// Makes a call of the table, and says what it answers. A claim isn't confirmed here.
pub(crate) fn advance(
    table: &Table,
    seat: &mut Seat,
    plan: &Plan,
    work: &mut Work,
    call: Call,
) -> Said
    requires { IsWorking table.now seat.old plan.now work.old }
    ensures { IsWorking table.now seat.new plan.now work.new }
{
    match call {
        Call::Look { slot } => look(table, seat, plan, work, slot),
        Call::Burst => take_burst(table, seat, plan, work),
        Call::Limit => take_limit(table, seat, plan, work),
        Call::Room => take_room(table, seat, plan, work),
        Call::Claim => claim(table, seat, plan, work),
        Call::Drop => drop_claim(table, seat, plan, work),
        Call::GiveBack => give_back(table, seat, plan, work),
        Call::Confirm => Said::NotNow,
    }
}

// Looks at a slot, while nothing is held.
fn look(table: &Table, seat: &mut Seat, plan: &Plan, work: &mut Work, slot: Slot) -> Said
    requires { IsWorking table.now seat.old plan.now work.old }
    ensures { IsWorking table.now seat.new plan.now work.new }
{
    let _ = plan;
    let Held::Nothing = work.held else {
        return Said::NotNow;
    };
    if slot.0 > LAST_SLOT {
        return Said::NotNow;
    }
    let seen = table.look(seat, slot);
    work.seen = claimable(&seen);
    Said::Slot { seen }
}

// What was seen, where it is a waiting frame below the last version.
fn claimable(seen: &Seen) -> Option<Seen>
    ensures { IsClaimable seen.now result }
{
    if seen.phase != WAITING || seen.version.0 >= LAST_VERSION {
        return None;
    }
    Some(*seen)
}

// Takes the cores of the frame that was seen, of the subscription of the plan.
fn take_burst(table: &Table, seat: &mut Seat, plan: &Plan, work: &mut Work) -> Said
    requires { IsWorking table.now seat.old plan.now work.old }
    ensures { IsWorking table.now seat.new plan.now work.new }
{
    let Held::Nothing = work.held else {
        return Said::NotNow;
    };
    let Some(seen) = work.seen else {
        return Said::NotNow;
    };
    let Some(sub) = sub_for(plan, seen.slot, seen.version) else {
        return Said::NotNow;
    };
    looks_stay_in_the_trail();
    match table.take_burst(seat, sub, seen.cores) {
        Ok(burst) => {
            work.held = Held::Burst {
                burst: held_burst(burst),
            };
            Said::Done
        }
        Err(full) => Said::BurstFull { full },
    }
}

// Takes a place in the limit of the frame that was seen.
fn take_limit(table: &Table, seat: &mut Seat, plan: &Plan, work: &mut Work) -> Said
    requires { IsWorking table.now seat.old plan.now work.old }
    ensures { IsWorking table.now seat.new plan.now work.new }
{
    let _ = plan;
    let Held::Burst { burst } = work.held else {
        return Said::NotNow;
    };
    let Some(seen) = work.seen else {
        return Said::NotNow;
    };
    let Some(limit) = seen.limit else {
        return Said::NotNow;
    };
    if burst.limit.is_some() || u32::from(limit.0) >= MOST_LIMITS {
        return Said::NotNow;
    }
    looks_stay_in_the_trail();
    match table.take_limit(seat, burst_of(&burst), limit) {
        Ok(burst) => {
            work.held = Held::Burst {
                burst: held_burst(burst),
            };
            Said::Done
        }
        Err((burst, full)) => {
            let _ = held_burst(burst);
            Said::LimitFull { full }
        }
    }
}

// Takes room on the plan's host for the frame that was seen.
fn take_room(table: &Table, seat: &mut Seat, plan: &Plan, work: &mut Work) -> Said
    requires { IsWorking table.now seat.old plan.now work.old }
    ensures { IsWorking table.now seat.new plan.now work.new }
{
    let Held::Burst { burst } = work.held else {
        return Said::NotNow;
    };
    let Some(seen) = work.seen else {
        return Said::NotNow;
    };
    looks_stay_in_the_trail();
    match table.take_host(seat, burst_of(&burst), plan.host, seen.memory) {
        Ok(hold) => {
            work.held = Held::Room {
                room: held_room(hold),
            };
            Said::Done
        }
        Err((burst, _, short)) => {
            let _ = held_burst(burst);
            Said::Short { short }
        }
    }
}

// Claims the frame that was seen, where what is held is for it and it suited the host.
fn claim(table: &Table, seat: &mut Seat, plan: &Plan, work: &mut Work) -> Said
    requires { IsWorking table.now seat.old plan.now work.old }
    ensures { IsWorking table.now seat.new plan.now work.new }
{
    let Held::Room { room } = work.held else {
        return Said::NotNow;
    };
    let Some(seen) = work.seen else {
        return Said::NotNow;
    };
    let Some(sub) = sub_for(plan, seen.slot, seen.version) else {
        return Said::NotNow;
    };
    if room.host != plan.host || room.burst.sub != sub || !is_for(&room, &seen) {
        return Said::NotNow;
    }
    looks_stay_in_the_trail();
    match table.claim(seat, hold_of(&room), seen) {
        Ok(claim) => {
            work.held = Held::Claim {
                claim: held_claim(claim),
            };
            Said::Done
        }
        Err((hold, taken)) => {
            let _ = held_room(hold);
            Said::Taken { taken }
        }
    }
}

// Whether so much is held as the frame that was seen wants.
fn is_for(room: &HeldRoom, seen: &Seen) -> bool
    ensures { result ≡ true → IsFor room.now seen.now }
{
    if room.burst.cores != seen.cores || room.memory != seen.memory {
        return false;
    }
    match (room.burst.limit, seen.limit) {
        (None, None) => true,
        (Some(limit), Some(wanted)) => limit == wanted,
        _ => false,
    }
}

// Lets a claim go.
fn drop_claim(table: &Table, seat: &mut Seat, plan: &Plan, work: &mut Work) -> Said
    requires { IsWorking table.now seat.old plan.now work.old }
    ensures { IsWorking table.now seat.new plan.now work.new }
{
    let _ = plan;
    let Held::Claim { claim } = work.held else {
        return Said::NotNow;
    };
    looks_stay_in_the_trail();
    let dropped = table.drop_claim(seat, claim_of(&claim));
    work.held = Held::Nothing;
    Said::Dropped { dropped }
}

// Gives back what is held, where it isn't a claim.
fn give_back(table: &Table, seat: &mut Seat, plan: &Plan, work: &mut Work) -> Said
    requires { IsWorking table.now seat.old plan.now work.old }
    ensures { IsWorking table.now seat.new plan.now work.new }
{
    let _ = plan;
    looks_stay_in_the_trail();
    match work.held {
        Held::Burst { burst } => {
            table.give_burst(seat, burst_of(&burst));
            work.held = Held::Nothing;
            Said::Done
        }
        Held::Room { room } => {
            table.give_back(seat, hold_of(&room));
            work.held = Held::Nothing;
            Said::Done
        }
        Held::Nothing | Held::Claim { .. } => Said::NotNow,
    }
}
