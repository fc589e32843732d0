//! What two threads do to one table, and what it shows before and after.

ghost use Rattle.std.specs.Prelude.{◌≡◌, None};
ghost use Rattle.std.specs.Thread.{IsSync};
ghost use Rattle.booking_core.specs.Machine.{CanTake, MayGive};
ghost use Rattle.booking_table.specs.Seats.{view, IsSeatOf};
ghost use Rattle.booking_threads.specs.Free.{StaysFree};

use crate::taking::{Takes, take_often};
use booking_table::{BurstFull, Seat, Table};
use farm_types::{Cores, Slot, SubNo};
use std::io::{self, Print};
use std::thread::{Threads, join};

const TIMES: u32 = 1_000_000;

/// Two seats take cores of the first subscription in threads of their own. Writes what a slot and the subscription show before
/// and after. False where memory is short.
pub(crate) fn shared_words<R: Print + Threads + AllocGlobal + Sync>(rt: &R) -> io::Result<bool> {
    let Ok((table, mut seat)) = Table::make(rt.alloc()) else {
        println!(rt; "FAILED: memory is short")?;
        return Ok(false);
    };
    show(rt, &table, &mut seat)?;
    let first = table.split(&mut seat);
    let second = table.split(&mut seat);
    let (one, other) = join(
        rt,
        || -> (Seat, Takes)
            requires { IsSeatOf table first × CanTake (view first) × MayGive (view first) }
            ensures { IsSeatOf table result.0 × StaysFree (view first) (view result.0) }
        { take_with(&table, first) },
        || -> (Seat, Takes)
            requires { IsSeatOf table second × CanTake (view second) × MayGive (view second) }
            ensures { IsSeatOf table result.0 × StaysFree (view second) (view result.0) }
        { take_with(&table, second) },
    );
    tell(rt, "one", one.1)?;
    tell(rt, "other", other.1)?;
    let (mut seat, _) = one;
    show(rt, &table, &mut seat)?;
    Ok(true)
}

// Takes often with a seat that is handed back.
fn take_with(table: &Table, seat: Seat) -> (Seat, Takes)
    requires table { IsSeatOf table.now seat }
    requires free { CanTake (view seat) × MayGive (view seat) }
    ensures table { IsSeatOf table.now result.0 }
    ensures free { StaysFree (view seat) (view result.0) }
{
    let mut seat = seat;
    let takes = take_often(table, &mut seat, SubNo(0), Cores(100), TIMES);
    (seat, takes)
}

// Writes how a thread's takes went.
fn tell<R: Print>(rt: &R, name: &str, takes: Takes) -> io::Result<()> {
    println!(rt;
        "{name}: {} granted, {} refused",
        takes.granted, takes.refused
    )
}

// Writes what the first slot shows, and the answers to two takes of the first subscription.
fn show<R: Print>(rt: &R, table: &Table, seat: &mut Seat) -> io::Result<()>
    requires table { IsSeatOf table.now seat.old }
    requires free { CanTake (view seat.old) × MayGive (view seat.old) }
    ensures table { IsSeatOf table.now seat.new }
    ensures free { StaysFree (view seat.old) (view seat.new) }
{
    let seen = table.look(seat, Slot(0));
    println!(rt; "slot 0: phase {}, version {}", seen.phase, seen.version.0)?;
    show_take(rt, table, seat)?;
    show_take(rt, table, seat)
}

// Writes the answer to a take of the first subscription.
fn show_take<R: Print>(rt: &R, table: &Table, seat: &mut Seat) -> io::Result<()>
    requires table { IsSeatOf table.now seat.old }
    requires free { CanTake (view seat.old) × MayGive (view seat.old) }
    ensures table { IsSeatOf table.now seat.new }
    ensures free { StaysFree (view seat.old) (view seat.new) }
{
    match table.take_burst(seat, SubNo(0), Cores(100)) {
        Ok(burst) => {
            table.give_burst(seat, burst);
            println!(rt; "subscription 0: granted")
        }
        Err(BurstFull { booked, burst }) => {
            println!(rt;
                "subscription 0: full, booked {}, burst {}",
                booked.0, burst.0
            )
        }
    }
}
