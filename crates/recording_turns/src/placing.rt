//! The words of a farm, placed for the first time.

ghost use Rattle.std.specs.Prelude.{◌≡◌, ◌≢◌, ◌+◌, ◌<◌, [], length};
ghost use Rattle.frame_words.specs.Bits.{FitsAmount, FitsFrame};
ghost use Rattle.booking_rule.specs.Link.{stand_at};
ghost use Rattle.booking_rule.specs.Rule.{word_of};
ghost use Rattle.booking_table.specs.Seats.{view, IsSeatOf, IsSameSeat};
ghost use Rattle.farm_stands.specs.Turns.{amounts_in};
ghost use Rattle.recording_turns.specs.Placed.{HasPlaced, IsPlacing, Onward};
ghost use Rattle.recording_turns.specs.Resting.{IsPlaced, IsUnplaced};

use crate::free::free_word;
use booking_table::{Seat, Table};
use entry_law::used_is_running;
use farm_core::Farm;
use farm_stands::{SlotWords, burst, most, slot_words};
use farm_types::{HostNo, LimitNo, Slot, SubNo};
use frame_words::{AmountWord, FREE, FrameWord, LimitWord, RUNNING, SubWord};
use recording_table::{
    Opens, close_opening, open_farm, place_burst, place_most, place_size, place_slot, set_amount,
    turn_slot,
};
use std::marker::Brand;

// how many hosts and subscriptions have words
const HOSTS: u16 = 4096;

const SUBS: u16 = 1024;

/// Places a farm on a table whose words are all 0: the journal starts from it, and each word comes to show what it says, hosts
/// first, then subscriptions, limits and slots, each by number.
pub fn place_farm(table: &Table, seat: &mut Seat, farm: &Farm)
    requires table { IsSeatOf table.now seat.old }
    requires unplaced { IsUnplaced (view seat.old) }
    ensures same { IsSameSeat seat.old seat.new }
    ensures placed { IsPlaced (view seat.old) farm.now (view seat.new) }
{
    place_as::<Brand>(table, seat, farm);
}

fn place_as<E: Opens>(table: &Table, seat: &mut Seat, farm: &Farm)
    requires table { IsSeatOf table.now seat.old }
    requires farm { E.farm ≡ farm.now }
    requires unplaced { IsUnplaced (view seat.old) }
    ensures same { IsSameSeat seat.old seat.new }
    ensures placed { IsPlaced (view seat.old) farm.now (view seat.new) }
{
    farm.kept();
    open_farm::<E>(table, seat);
    place_all(table, seat, farm);
    close_opening(table, seat);
}

// All words of the farm.
fn place_all(table: &Table, seat: &mut Seat, farm: &Farm)
    requires table { IsSeatOf table.now seat.old }
    requires placing { IsPlacing farm.now 0 0 0 [] (view seat.old) }
    ensures same { IsSameSeat seat.old seat.new }
    ensures placed { HasPlaced farm.now (length farm.now.limits) (length farm.now.slots) (view seat.new) }
    ensures onward { Onward (view seat.old) (view seat.new) }
{
    place_hosts(table, seat, farm);
    place_subs(table, seat, farm);
    place_limits(table, seat, farm);
    place_slots(table, seat, farm);
}

// ---- hosts

fn place_hosts(table: &Table, seat: &mut Seat, farm: &Farm)
    requires table { IsSeatOf table.now seat.old }
    requires placing { IsPlacing farm.now 0 0 0 [] (view seat.old) }
    ensures same { IsSameSeat seat.old seat.new }
    ensures placing { IsPlacing farm.now 4096 0 0 [] (view seat.new) }
    ensures onward { Onward (view seat.old) (view seat.new) }
{
    for number in 0..HOSTS {
        place_host(table, seat, farm, HostNo(number));
    }
}

// What is free of a host, which is nothing where there is no such host.
fn place_host(table: &Table, seat: &mut Seat, farm: &Farm, host: HostNo)
    requires table { IsSeatOf table.now seat.old }
    requires within { host < 4096 }
    requires placing { IsPlacing farm.now host 0 0 [] (view seat.old) }
    ensures same { IsSameSeat seat.old seat.new }
    ensures placing { IsPlacing farm.now (host + 1) 0 0 [] (view seat.new) }
    ensures onward { Onward (view seat.old) (view seat.new) }
{
    farm.kept();
    used_is_running();
    place_size(table, seat, host, free_word(farm, host));
}

// ---- subscriptions

fn place_subs(table: &Table, seat: &mut Seat, farm: &Farm)
    requires table { IsSeatOf table.now seat.old }
    requires placing { IsPlacing farm.now 4096 0 0 [] (view seat.old) }
    ensures same { IsSameSeat seat.old seat.new }
    ensures placing { IsPlacing farm.now 4096 1024 0 [] (view seat.new) }
    ensures onward { Onward (view seat.old) (view seat.new) }
{
    for number in 0..SUBS {
        place_sub(table, seat, farm, SubNo(number));
    }
}

// A subscription's burst and what is booked of it, both 0 where there is no such subscription.
fn place_sub(table: &Table, seat: &mut Seat, farm: &Farm, sub: SubNo)
    requires table { IsSeatOf table.now seat.old }
    requires within { sub < 1024 }
    requires placing { IsPlacing farm.now 4096 sub 0 [] (view seat.old) }
    ensures same { IsSameSeat seat.old seat.new }
    ensures placing { IsPlacing farm.now 4096 (sub + 1) 0 [] (view seat.new) }
    ensures onward { Onward (view seat.old) (view seat.new) }
{
    farm.kept();
    used_is_running();
    place_burst(
        table,
        seat,
        sub,
        SubWord {
            burst: burst(farm, sub),
            booked: farm.books().booked(sub),
        },
    );
}

// ---- limits

fn place_limits(table: &Table, seat: &mut Seat, farm: &Farm)
    requires table { IsSeatOf table.now seat.old }
    requires placing { IsPlacing farm.now 4096 1024 0 [] (view seat.old) }
    ensures same { IsSameSeat seat.old seat.new }
    ensures placing { IsPlacing farm.now 4096 1024 (length farm.now.limits) [] (view seat.new) }
    ensures onward { Onward (view seat.old) (view seat.new) }
{
    let count = farm.books().limits().count();
    for number in 0..count {
        place_limit(table, seat, farm, LimitNo(number as u8));
    }
}

// How many frames may run in a limit, and how many do.
fn place_limit(table: &Table, seat: &mut Seat, farm: &Farm, limit: LimitNo)
    requires table { IsSeatOf table.now seat.old }
    requires within { limit < 255 }
    requires there { limit < length farm.now.limits }
    requires placing { IsPlacing farm.now 4096 1024 limit [] (view seat.old) }
    ensures same { IsSameSeat seat.old seat.new }
    ensures placing { IsPlacing farm.now 4096 1024 (limit + 1) [] (view seat.new) }
    ensures onward { Onward (view seat.old) (view seat.new) }
{
    farm.kept();
    used_is_running();
    place_most(
        table,
        seat,
        limit,
        LimitWord {
            most: most(farm, limit),
            running: farm.books().running(limit),
        },
    );
}

// ---- slots

fn place_slots(table: &Table, seat: &mut Seat, farm: &Farm)
    requires table { IsSeatOf table.now seat.old }
    requires placing { IsPlacing farm.now 4096 1024 (length farm.now.limits) [] (view seat.old) }
    ensures same { IsSameSeat seat.old seat.new }
    ensures placed { HasPlaced farm.now (length farm.now.limits) (length farm.now.slots) (view seat.new) }
    ensures onward { Onward (view seat.old) (view seat.new) }
{
    let count = farm.books().slots().len();
    for number in 0..count {
        place_words(table, seat, farm, Slot(number as u32));
    }
}

// A slot's words.
fn place_words(table: &Table, seat: &mut Seat, farm: &Farm, slot: Slot)
    requires table { IsSeatOf table.now seat.old }
    requires within { slot < 65536 }
    requires placed { HasPlaced farm.now (length farm.now.limits) slot (view seat.old) }
    ensures same { IsSameSeat seat.old seat.new }
    ensures placed { HasPlaced farm.now (length farm.now.limits) (slot + 1) (view seat.new) }
    ensures onward { Onward (view seat.old) (view seat.new) }
{
    let SlotWords { frame, amount } = slot_words(farm, slot);
    if frame.phase == FREE {
        place_free(table, seat, farm, slot, frame);
        return;
    }
    place_frame(table, seat, farm, slot, frame, amount);
}

// The word of a slot without a frame, unless the slot was never used.
fn place_free(table: &Table, seat: &mut Seat, farm: &Farm, slot: Slot, word: FrameWord)
    requires table { IsSeatOf table.now seat.old }
    requires within { (slot < 65536) × FitsFrame word }
    requires word { word ≡ word_of (stand_at farm.now slot) }
    requires free { word.phase ≡ 0 }
    requires placed { HasPlaced farm.now (length farm.now.limits) slot (view seat.old) }
    ensures same { IsSameSeat seat.old seat.new }
    ensures placed { HasPlaced farm.now (length farm.now.limits) (slot + 1) (view seat.new) }
    ensures onward { Onward (view seat.old) (view seat.new) }
{
    let _ = farm;
    if word.version.0 == 0 {
        return;
    }
    turn_slot(table, seat, slot, word);
}

// The words of a slot with a frame: its amounts come first.
fn place_frame(
    table: &Table,
    seat: &mut Seat,
    farm: &Farm,
    slot: Slot,
    word: FrameWord,
    amount: AmountWord,
)
    requires table { IsSeatOf table.now seat.old }
    requires within { (slot < 65536) × FitsFrame word }
    requires amount_fits { FitsAmount amount }
    requires word { word ≡ word_of (stand_at farm.now slot) }
    requires amount { amount ≡ amounts_in (stand_at farm.now slot) }
    requires used { word.phase ≢ 0 }
    requires placed { HasPlaced farm.now (length farm.now.limits) slot (view seat.old) }
    ensures same { IsSameSeat seat.old seat.new }
    ensures placed { HasPlaced farm.now (length farm.now.limits) (slot + 1) (view seat.new) }
    ensures onward { Onward (view seat.old) (view seat.new) }
{
    farm.kept();
    set_amount(table, seat, slot, amount);
    if word.phase == RUNNING {
        place_slot(table, seat, slot, word);
        return;
    }
    turn_slot(table, seat, slot, word);
}
