//! A list of events.

ghost use Rattle.std.specs.Prelude.{◌<◌, ◌^◌, length};
ghost use Rattle.world_law.specs.Promises.{KeepsPromises};
ghost use Rattle.world_core.specs.Running.{Runs};

use crate::world::World;
use farm_types::Items;
use std::alloc::Global;
use world_law::{Event, WorldFault};

/// The events happen in order, up to the first fault, which is given with its place, counted from 0. Whatever is lost,
/// repeated or late, whatever restarts, and whatever the store refuses, the world keeps its promises.
pub fn run_world(
    alloc: Global,
    world: &mut World,
    events: &Items<Event>,
) -> Result<(), (u32, WorldFault)>
    requires { length events.now < 2 ^ 32 }
    ensures run { Runs world.old events.now result world.new }
    ensures promises { KeepsPromises world.new }
{
    let ran = run_each(alloc, world, events.as_slice());
    world.promised();
    ran
}

// The events happen in order, up to the first fault.
fn run_each(alloc: Global, world: &mut World, events: &[Event]) -> Result<(), (u32, WorldFault)>
    requires { length events.now < 2 ^ 32 }
    ensures { Runs world.old events.now result world.new }
{
    let mut place = 0;
    for event in events {
        match world.step(alloc, event) {
            Ok(()) => place += 1,
            Err(why) => return Err((place, why)),
        }
    }
    Ok(())
}
