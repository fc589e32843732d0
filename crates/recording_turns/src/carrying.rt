//! The words of an entry.

ghost use Rattle.std.specs.Prelude.{◌≡◌, ◌↔◌, ◌<◌, ℕ, [], IfNone, IfSome, IsTrue, Some, not, length, true, false};
ghost use Rattle.farm_types.specs.Farm.{sub_of};
ghost use Rattle.frame_words.specs.Bits.{FitsAmount, FitsFrame};
ghost use Rattle.booking_rule.specs.Link.{host_alloc, stand_at};
ghost use Rattle.booking_rule.specs.Rule.{is_booked};
ghost use Rattle.booking_table.specs.Calls.{limit_in};
ghost use Rattle.booking_table.specs.Seats.{view, IsSeatOf, IsSameSeat};
ghost use Rattle.recording_core.specs.Machine.{HasItsAmounts};
ghost use Rattle.recording_core.specs.Records.{desk_in};
ghost use Rattle.farm_stands.specs.Turns.{Says, words_in};
ghost use Rattle.recording_turns.specs.Carrying.{Carried, CarriedIf, Gave, Goes, Going, HasFreed, IsNoted, IsOpen, IsReady, SlotsDone, Turned};
ghost use Rattle.recording_turns.specs.Carrying.{host_key, host_turn, is_slot, limit_key, limit_turn, slot_key, slot_turn, sub_key, sub_turn};
ghost use Rattle.recording_turns.specs.Owing.{Owes};
ghost use Rattle.recording_turns.specs.Resting.{IsAtRest, WentOn};

use booking_table::{BurstHold, Hold, Seat, Table};
use farm_core::Farm;
use farm_stands::{HostSize, SlotWords, Turn, burst, host_size, most, slot_words};
use farm_types::{Cores, HostNo, LimitNo, Slot, SubNo};
use frame_words::{AmountWord, FREE, FrameWord, HostWord, RUNNING, SETUP};
use recording_table::{change_slot, set_amount, set_burst, set_most, set_size};

/// Changes the words of the turns to what the farm says after the entry that was recorded last, slots first. What claims and
/// attempts had booked goes back, but for room on a host that is resized, which becomes a part of its new size. Afterwards
/// nothing is left to do, and the seat holds nothing.
pub fn carry_out(
    table: &Table,
    seat: &mut Seat,
    farm: &Farm,
    turns: &[Turn],
    resized: Option<HostNo>,
)
    requires table { IsSeatOf table.now seat.old }
    requires owes { Owes (view seat.old) farm.now turns.now resized }
    ensures same { IsSameSeat seat.old seat.new }
    ensures rests { IsAtRest (view seat.new) }
    ensures went { WentOn (view seat.old) (view seat.new) }
{
    carry_slots(table, seat, farm, turns, &resized);
    carry_others(table, seat, farm, turns, &resized);
}

// The turns of slots.
fn carry_slots(
    table: &Table,
    seat: &mut Seat,
    farm: &Farm,
    turns: &[Turn],
    resized: &Option<HostNo>,
)
    requires table { IsSeatOf table.now seat.old }
    requires owes { Owes (view seat.old) farm.now turns.now resized.now }
    ensures same { IsSameSeat seat.old seat.new }
    ensures goes { Goes (view seat.old) farm.now turns.now resized.now (length turns.now) 0 (view seat.new) }
{
    for turn in turns {
        carry_turn(table, seat, farm, turn, resized);
    }
}

// The turns of hosts, subscriptions and limits, after those of slots.
fn carry_others(
    table: &Table,
    seat: &mut Seat,
    farm: &Farm,
    turns: &[Turn],
    resized: &Option<HostNo>,
)
    requires table { IsSeatOf table.now seat.old }
    requires goes { Goes (view seat.old) farm.now turns.now resized.now (length turns.now) 0 (view seat.old) }
    ensures same { IsSameSeat seat.old seat.new }
    ensures goes { Goes (view seat.old) farm.now turns.now resized.now (length turns.now) (length turns.now) (view seat.new) }
{
    for turn in turns {
        carry_other(table, seat, farm, turn, resized);
    }
}

// ---- a slot

// The turn, where it is of a slot.
fn carry_turn(table: &Table, seat: &mut Seat, farm: &Farm, turn: &Turn, resized: &Option<HostNo>)
    requires table { IsSeatOf table.now seat.old }
    requires going { Going (view seat.old) farm.now resized.now }
    requires hosts { (desk_in (view seat.old).desk).hosts ≡ [] }
    requires opens { is_slot turn.now ≡ true → IsOpen (view seat.old) turn.now }
    ensures same { IsSameSeat seat.old seat.new }
    ensures going { Going (view seat.new) farm.now resized.now }
    ensures carried { CarriedIf (is_slot turn.now) (view seat.old) farm.now turn.now (view seat.new) }
{
    match turn {
        Turn::Slot {
            slot,
            frame,
            amount,
        } => carry_slot(table, seat, farm, *slot, frame, amount, resized),
        Turn::Host { .. } | Turn::Sub { .. } | Turn::Limit { .. } => {}
    }
}

// The words of a slot become what the farm says, where these aren't it.
fn carry_slot(
    table: &Table,
    seat: &mut Seat,
    farm: &Farm,
    slot: Slot,
    frame: &FrameWord,
    amount: &AmountWord,
    resized: &Option<HostNo>,
)
    requires table { IsSeatOf table.now seat.old }
    requires going { Going (view seat.old) farm.now resized.now }
    requires hosts { (desk_in (view seat.old).desk).hosts ≡ [] }
    requires opens { IsOpen (view seat.old) (slot_turn slot frame.now amount.now) }
    ensures same { IsSameSeat seat.old seat.new }
    ensures going { Going (view seat.new) farm.now resized.now }
    ensures carried { Carried (view seat.old) farm.now (slot_turn slot frame.now amount.now) (view seat.new) }
{
    let words = slot_words(farm, slot);
    if words.are(frame, amount) {
        return;
    }
    carry_words(table, seat, farm, slot, frame, amount, &words, resized);
}

// The words of a slot become what the farm says, its amounts first.
fn carry_words(
    table: &Table,
    seat: &mut Seat,
    farm: &Farm,
    slot: Slot,
    frame: &FrameWord,
    amount: &AmountWord,
    words: &SlotWords,
    resized: &Option<HostNo>,
)
    requires table { IsSeatOf table.now seat.old }
    requires ready { IsReady (view seat.old) farm.now slot frame.now amount.now resized.now }
    requires words { words.now ≡ words_in (stand_at farm.now slot) }
    requires fits { FitsFrame words.now.frame × FitsAmount words.now.amount }
    ensures same { IsSameSeat seat.old seat.new }
    ensures going { Going (view seat.new) farm.now resized.now }
    ensures turned { Turned (view seat.old) (slot_key slot) (view seat.new) }
{
    write_amount(table, seat, farm, slot, frame, amount, words, resized);
    let FrameWord {
        phase,
        version: _,
        host,
        cores,
    } = change_slot(table, seat, slot, frame.phase, words.frame);
    if !is_booked(phase) {
        return;
    }
    let sub = sub_at(farm, amount, host);
    give_found(table, seat, sub, cores, host, amount, resized);
}

// The amounts of a frame that comes to a free slot.
fn write_amount(
    table: &Table,
    seat: &mut Seat,
    farm: &Farm,
    slot: Slot,
    frame: &FrameWord,
    amount: &AmountWord,
    words: &SlotWords,
    resized: &Option<HostNo>,
)
    requires table { IsSeatOf table.now seat.old }
    requires ready { IsReady (view seat.old) farm.now slot frame.now amount.now resized.now }
    requires words { words.now ≡ words_in (stand_at farm.now slot) }
    requires fits { FitsFrame words.now.frame × FitsAmount words.now.amount }
    ensures same { IsSameSeat seat.old seat.new }
    ensures noted { IsNoted (view seat.old) (view seat.new) }
    ensures amounts { HasItsAmounts (view seat.new) slot }
{
    let _ = farm;
    let _ = amount;
    let _ = resized;
    if frame.phase != FREE {
        return;
    }
    if words.frame.phase == FREE {
        return;
    }
    set_amount(table, seat, slot, words.amount);
}

// What a booked word had booked goes back, but for room on the host that is resized.
fn give_found(
    table: &Table,
    seat: &mut Seat,
    sub: SubNo,
    cores: Cores,
    host: HostNo,
    amount: &AmountWord,
    resized: &Option<HostNo>,
)
    requires table { IsSeatOf table.now seat.old }
    requires held { HasFreed (view seat.old) sub cores host amount.now resized.now }
    ensures same { IsSameSeat seat.old seat.new }
    ensures gave { Gave (view seat.old) resized.now (view seat.new) }
{
    let burst = BurstHold::of(sub, cores, limit_in(amount.limit));
    if is_that(resized, &host) {
        table.give_burst(seat, burst);
        return;
    }
    let hold = Hold::of(burst, host, amount.memory);
    table.give_back(seat, hold);
}

// Whether a word in that phase has booked something.
fn is_booked(phase: u8) -> bool
    ensures { result ≡ is_booked phase }
{
    phase == SETUP || phase == RUNNING
}

// The limit of an amount word.
fn limit_in(code: u8) -> Option<LimitNo>
    ensures { result ≡ limit_in code }
{
    match code {
        0 => None,
        code => Some(LimitNo(code - 1)),
    }
}

// Whether it is that host.
fn is_that(resized: &Option<HostNo>, host: &HostNo) -> bool
    ensures { IsTrue result ↔ (resized.now ≡ Some host.now) }
{
    match resized {
        None => false,
        Some(other) => other == host,
    }
}

// The subscription that pays for what the amounts say, on that host.
fn sub_at(farm: &Farm, amount: &AmountWord, host: HostNo) -> SubNo
    requires within { sub_of amount.now.show (host_alloc farm.now host) < 1024 }
    ensures { result ≡ sub_of amount.now.show (host_alloc farm.now host) }
{
    let HostSize {
        cores: _,
        memory: _,
        alloc,
    } = host_size(farm, host);
    match SubNo::of(amount.show, alloc) {
        None => unreachable!(),
        Some(sub) => sub,
    }
}

// ---- a host, a subscription, a limit

// The turn, where it isn't of a slot.
fn carry_other(table: &Table, seat: &mut Seat, farm: &Farm, turn: &Turn, resized: &Option<HostNo>)
    requires table { IsSeatOf table.now seat.old }
    requires going { Going (view seat.old) farm.now resized.now }
    requires slots { SlotsDone (view seat.old) farm.now }
    requires opens { is_slot turn.now ≡ false → IsOpen (view seat.old) turn.now }
    ensures same { IsSameSeat seat.old seat.new }
    ensures going { Going (view seat.new) farm.now resized.now }
    ensures carried { CarriedIf (not (is_slot turn.now)) (view seat.old) farm.now turn.now (view seat.new) }
{
    if is_slot(turn) || turn.is_said_by(farm) {
        return;
    }
    match turn {
        Turn::Slot { .. } => {}
        Turn::Host { host, size } => carry_host(table, seat, farm, *host, size, resized),
        Turn::Sub { sub, burst } => carry_sub(table, seat, farm, *sub, *burst, resized),
        Turn::Limit { limit, most } => carry_limit(table, seat, farm, *limit, *most, resized),
    }
}

fn is_slot(turn: &Turn) -> bool
    ensures { result ≡ is_slot turn.now }
{
    match turn {
        Turn::Slot { .. } => true,
        Turn::Host { .. } | Turn::Sub { .. } | Turn::Limit { .. } => false,
    }
}

// A host gets its size.
fn carry_host(
    table: &Table,
    seat: &mut Seat,
    farm: &Farm,
    host: HostNo,
    said: &HostSize,
    resized: &Option<HostNo>,
)
    requires table { IsSeatOf table.now seat.old }
    requires going { Going (view seat.old) farm.now resized.now }
    requires slots { SlotsDone (view seat.old) farm.now }
    requires opens { IsOpen (view seat.old) (host_turn host said.now) }
    requires differs { Says farm.now (host_turn host said.now) → ⊥ }
    ensures same { IsSameSeat seat.old seat.new }
    ensures going { Going (view seat.new) farm.now resized.now }
    ensures turned { Turned (view seat.old) (host_key host) (view seat.new) }
{
    let _ = said;
    let _ = resized;
    let HostSize {
        cores,
        memory,
        alloc: _,
    } = host_size(farm, host);
    set_size(table, seat, host, HostWord { cores, memory });
}

// A subscription gets its burst.
fn carry_sub(
    table: &Table,
    seat: &mut Seat,
    farm: &Farm,
    sub: SubNo,
    said: Cores,
    resized: &Option<HostNo>,
)
    requires table { IsSeatOf table.now seat.old }
    requires going { Going (view seat.old) farm.now resized.now }
    requires opens { IsOpen (view seat.old) (sub_turn sub said) }
    requires differs { Says farm.now (sub_turn sub said) → ⊥ }
    ensures same { IsSameSeat seat.old seat.new }
    ensures going { Going (view seat.new) farm.now resized.now }
    ensures turned { Turned (view seat.old) (sub_key sub) (view seat.new) }
{
    let _ = resized;
    set_burst(table, seat, sub, said, burst(farm, sub));
}

// A limit gets its most.
fn carry_limit(
    table: &Table,
    seat: &mut Seat,
    farm: &Farm,
    limit: LimitNo,
    said: u32,
    resized: &Option<HostNo>,
)
    requires table { IsSeatOf table.now seat.old }
    requires going { Going (view seat.old) farm.now resized.now }
    requires opens { IsOpen (view seat.old) (limit_turn limit said) }
    requires differs { Says farm.now (limit_turn limit said) → ⊥ }
    ensures same { IsSameSeat seat.old seat.new }
    ensures going { Going (view seat.new) farm.now resized.now }
    ensures turned { Turned (view seat.old) (limit_key limit) (view seat.new) }
{
    let _ = resized;
    set_most(table, seat, limit, said, most(farm, limit));
}
