//! A step of any kind, by what it does to its word.

ghost use Rattle.std.specs.Prelude.{◌≡◌, ℕ, ◌+◌, ◌%◌, ◌^◌, ◌<◌, ◌==◌};
ghost use prog.Atomic.{either};
ghost use Rattle.booking_rule.specs.Words.{all_words};
ghost use Rattle.recording_core.specs.Records.{place, knows};
ghost use Rattle.booking_table.specs.Seats.{view, IsSeatOf, IsSameSeat};
ghost use Rattle.recording_table.specs.Steps.{kind_of, MayTake, Writes, Finds};

use crate::doing::Doing;
use crate::plays::{Stepped, Stepping};
use booking_table::{Seat, Table};
use recording_core::steps_keep_the_rule;
use std::marker::Brand;

/// A load.
pub(crate) fn load_as<E: Stepping>(table: &Table, seat: &mut Seat, word: usize) -> u64
    requires table { IsSeatOf table.now seat.old }
    requires word { (word < all_words) × (word ≡ place E.kind) }
    requires may { MayTake (view seat.old) E.kind }
    requires writes { Writes (view seat.old) E.kind (λ n. n) }
    ensures same { IsSameSeat seat.old seat.new }
    ensures knows { view seat.new ≡ knows (view seat.old) E.kind result }
    ensures finds { Finds (view seat.old) E.kind result }
{
    steps_keep_the_rule();
    table.words().load::<Stepped<E>>(seat, word)
}

/// A sum.
pub(crate) fn add_as<E: Stepping>(table: &Table, seat: &mut Seat, word: usize, amount: u64) -> u64
    requires table { IsSeatOf table.now seat.old }
    requires word { (word < all_words) × (word ≡ place E.kind) }
    requires may { MayTake (view seat.old) E.kind }
    requires writes { Writes (view seat.old) E.kind (λ n. (n + amount) % 2 ^ 64) }
    ensures same { IsSameSeat seat.old seat.new }
    ensures knows { view seat.new ≡ knows (view seat.old) E.kind result }
    ensures finds { Finds (view seat.old) E.kind result }
{
    steps_keep_the_rule();
    table.words().fetch_add::<Stepped<E>>(seat, word, amount)
}

#[inline(always)]
fn add_by<E: Stepping>(
    table: &Table,
    seat: &mut Seat,
    word: usize,
    amount: u64,
    doing: Doing,
) -> u64
    requires table { IsSeatOf table.now seat.old }
    requires word { (word < all_words) × (word ≡ place E.kind) }
    requires may { MayTake (view seat.old) E.kind }
    requires writes { Writes (view seat.old) E.kind (λ n. (n + amount) % 2 ^ 64) }
    ensures same { IsSameSeat seat.old seat.new }
    ensures knows { view seat.new ≡ knows (view seat.old) E.kind result }
    ensures finds { Finds (view seat.old) E.kind result }
{
    let _ = doing;
    add_as::<E>(table, seat, word, amount)
}

/// A sum, by a step of that kind.
#[inline(always)]
pub(crate) fn add(table: &Table, seat: &mut Seat, word: usize, amount: u64, doing: Doing) -> u64
    requires table { IsSeatOf table.now seat.old }
    requires word { (word < all_words) × (word ≡ place (kind_of doing)) }
    requires may { MayTake (view seat.old) (kind_of doing) }
    requires writes { Writes (view seat.old) (kind_of doing) (λ n. (n + amount) % 2 ^ 64) }
    ensures same { IsSameSeat seat.old seat.new }
    ensures knows { view seat.new ≡ knows (view seat.old) (kind_of doing) result }
    ensures finds { Finds (view seat.old) (kind_of doing) result }
{
    add_by::<Brand>(table, seat, word, amount, doing)
}

#[inline(always)]
fn swap_by<E: Stepping>(table: &Table, seat: &mut Seat, word: usize, new: u64, doing: Doing) -> u64
    requires table { IsSeatOf table.now seat.old }
    requires word { (word < all_words) × (word ≡ place E.kind) }
    requires may { MayTake (view seat.old) E.kind }
    requires writes { Writes (view seat.old) E.kind (λ n. new) }
    ensures same { IsSameSeat seat.old seat.new }
    ensures knows { view seat.new ≡ knows (view seat.old) E.kind result }
    ensures finds { Finds (view seat.old) E.kind result }
{
    let _ = doing;
    steps_keep_the_rule();
    table.words().swap::<Stepped<E>>(seat, word, new)
}

/// Another word in its place, whatever it was, by a step of that kind.
#[inline(always)]
pub(crate) fn swap(table: &Table, seat: &mut Seat, word: usize, new: u64, doing: Doing) -> u64
    requires table { IsSeatOf table.now seat.old }
    requires word { (word < all_words) × (word ≡ place (kind_of doing)) }
    requires may { MayTake (view seat.old) (kind_of doing) }
    requires writes { Writes (view seat.old) (kind_of doing) (λ n. new) }
    ensures same { IsSameSeat seat.old seat.new }
    ensures knows { view seat.new ≡ knows (view seat.old) (kind_of doing) result }
    ensures finds { Finds (view seat.old) (kind_of doing) result }
{
    swap_by::<Brand>(table, seat, word, new, doing)
}

#[inline(always)]
fn exchange_by<E: Stepping>(
    table: &Table,
    seat: &mut Seat,
    word: usize,
    old: u64,
    new: u64,
    doing: Doing,
) -> u64
    requires table { IsSeatOf table.now seat.old }
    requires word { (word < all_words) × (word ≡ place E.kind) }
    requires may { MayTake (view seat.old) E.kind }
    requires writes { Writes (view seat.old) E.kind (λ n. either (n == old) new n) }
    ensures same { IsSameSeat seat.old seat.new }
    ensures knows { view seat.new ≡ knows (view seat.old) E.kind result }
    ensures finds { Finds (view seat.old) E.kind result }
{
    let _ = doing;
    steps_keep_the_rule();
    table
        .words()
        .compare_exchange::<Stepped<E>>(seat, word, old, new)
}

/// Another word in its place, where it is the old one, by a step of that kind.
#[inline(always)]
pub(crate) fn exchange(
    table: &Table,
    seat: &mut Seat,
    word: usize,
    old: u64,
    new: u64,
    doing: Doing,
) -> u64
    requires table { IsSeatOf table.now seat.old }
    requires word { (word < all_words) × (word ≡ place (kind_of doing)) }
    requires may { MayTake (view seat.old) (kind_of doing) }
    requires writes { Writes (view seat.old) (kind_of doing) (λ n. either (n == old) new n) }
    ensures same { IsSameSeat seat.old seat.new }
    ensures knows { view seat.new ≡ knows (view seat.old) (kind_of doing) result }
    ensures finds { Finds (view seat.old) (kind_of doing) result }
{
    exchange_by::<Brand>(table, seat, word, old, new, doing)
}
