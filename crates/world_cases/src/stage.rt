//! A world with the names of its hosts.

ghost use Rattle.std.specs.Prelude.{◌≡◌, length, IfOk};

use crate::head::Head;
use case_text::LineFault;
use farm_types::{Attempt, Items, Text};
use rqd_core::RqdConfig;
use std::alloc::{AllocError, Global};
use std::marker::Model;
use world_core::{World, run_world};
use world_law::{Event, WorldFault};

/// A world, and the names of its hosts by their numbers.
#[derive(Drop)]
pub struct Stage {
    world: World,
    names: Items<Text>,
}

impl Model for Stage {
    ghost use Rattle.std.specs.Prelude.{◌≡◌, length};
    ghost use Rattle.world_law.specs.World as types;

    ghost Value = { types.World };

    ghost view = { λ s. s.world };

    ghost invariant = { λ s. length s.world.hosts ≡ length s.names };
}

impl Stage {
    /// The world that begins so, or nothing where a host's own line is among the requests.
    #[tactic(auto, using(crate::proofs::HostsStay::hosts_made))]
    pub fn begin(alloc: Global, head: Head) -> Result<Option<Stage>, AllocError> {
        let Head {
            farm,
            hosts,
            requests,
        } = head;
        let names = names_of(alloc, hosts.as_slice())?;
        match World::make(alloc, farm, &hosts, &requests) {
            Ok(world) => Ok(Some(Stage { world, names })),
            Err(WorldFault::NoMemory) => Err(AllocError),
            Err(_) => Ok(None),
        }
    }

    /// An event happens.
    #[tactic(auto, using(crate::proofs::HostsStay::hosts_run))]
    pub fn step(&mut self, alloc: Global, event: &Event) -> Result<(), WorldFault> {
        let mut events = Items::new(alloc);
        events.push(*event)?;
        match run_world(alloc, &mut self.world, &events) {
            Ok(()) => Ok(()),
            Err((_, why)) => Err(why),
        }
    }

    /// The world.
    pub fn world(&self) -> &World {
        &self.world
    }

    /// The number of the host of that name, or the one behind the last.
    pub fn host_named(&self, name: &str) -> Result<u32, LineFault> {
        match place_of(self.names.as_slice(), name) {
            None => host_number(self.names.len()),
            Some(place) => host_number(place),
        }
    }

    /// The name of a host.
    pub fn name_of(&self, host: u32) -> &str {
        match self.names.as_slice().get(host as usize) {
            None => "nobody",
            Some(name) => name.as_str(),
        }
    }

    /// What the present life of a host has started.
    pub fn started(&self, host: u32) -> Option<&[Attempt]> {
        if host as usize >= self.names.len() {
            return None;
        }
        Some(self.world.started(host).as_slice())
    }
}

// The names of hosts.
fn names_of(alloc: Global, hosts: &[RqdConfig]) -> Result<Items<Text>, AllocError>
    ensures { IfOk result (λ names. length names ≡ length hosts.now) }
{
    let mut names = Items::new(alloc);
    for host in hosts {
        names.push(host.name.copy(alloc)?)?;
    }
    Ok(names)
}

// The place of a name among others.
fn place_of(names: &[Text], name: &str) -> Option<usize> {
    for (place, other) in names.iter().enumerate() {
        if other.is(name) {
            return Some(place);
        }
    }
    None
}

// A place as a number.
fn host_number(place: usize) -> Result<u32, LineFault> {
    u32::try_from(place).map_err(|_| LineFault::Malformed)
}
