//! How many dispatchers there are at most, and what they share.

ghost use Rattle.std.specs.Prelude.{◌≡◌};
ghost use Rattle.booking_rule.specs.Kept.{first_view};
ghost use Rattle.booking_rule.specs.Link.{opening_of};
ghost use Rattle.booking_table.specs.Seats.{view, IsSeatOf};
ghost use Rattle.recorder_start.specs.Keeping.{IsKeptBy};

use booking_table::{Seat, Table};
use farm_keeper::MemoryKeeper;
use recorder_start::{OpenFault, load_farm};
use serving::shared_sessions::booking_recorder::farm_core::Farm;
use serving::shared_sessions::booking_recorder::{PassRefusal, Recorder};
use serving::shared_sessions::shared_bot::{Bot, Opened};
use std::alloc::Global;
use std::marker::Brand;
use std::sync::Wait;
use std::test::Fail;

/// What dispatchers share on a table that was just made, over a farm of which nothing was recorded yet.
pub(crate) fn new_bot<N: Opened>(
    alloc: Global,
    table: Table,
    seat: Seat,
    farm: Farm,
    keeper: MemoryKeeper,
) -> Bot<MemoryKeeper, N>
    requires table { table ≡ N.table }
    requires seat { IsSeatOf table seat }
    requires first { view seat ≡ first_view }
    requires kept { IsKeptBy farm keeper }
    requires opening { opening_of farm ≡ N.opening }
{
    let recorder: Recorder<MemoryKeeper, N> = Recorder::make(alloc, farm, keeper, &table, seat);
    Bot::make(table, recorder)
}

// How many passes are had of the empty farm, where one too many is asked for.
fn passes_had<R: Wait>(rt: &R, alloc: Global) -> Result<u32, OpenFault> {
    let mut keeper = MemoryKeeper::make(alloc, &[])?;
    let farm = load_farm(alloc, &mut keeper)?;
    let (table, seat) = Table::make(alloc)?;
    Ok(count_passes::<Brand, R>(rt, alloc, table, seat, farm, keeper))
}

fn count_passes<N: Opened, R: Wait>(
    rt: &R,
    alloc: Global,
    table: Table,
    seat: Seat,
    farm: Farm,
    keeper: MemoryKeeper,
) -> u32
    requires table { table ≡ N.table }
    requires seat { IsSeatOf table seat }
    requires first { view seat ≡ first_view }
    requires kept { IsKeptBy farm keeper }
    requires opening { opening_of farm ≡ N.opening }
{
    let bot: Bot<MemoryKeeper, N> = new_bot(alloc, table, seat, farm, keeper);
    for had in 0..65 {
        match bot.pass(rt) {
            Ok(_pass) => {}
            Err(PassRefusal::Full) => return had,
        }
    }
    65
}

#[test]
fn there_are_sixty_four_passes(rt: HostRuntime) -> Result<(), Fail> {
    assert_eq!(rt; passes_had(&rt, rt.alloc())?, 64);
    Ok(())
}
