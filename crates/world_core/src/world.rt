//! The world: how it is made, goes on and is read.

ghost use Rattle.std.specs.Prelude.{◌≡◌, slice_get};
ghost use Rattle.std.specs.List.{list_any};
ghost use Rattle.world_law.specs.Outcomes.{Outcome};
ghost use Rattle.world_law.specs.Promises.{KeepsPromises};
ghost use Rattle.world_core.specs.Making.{Makes, is_hosts_own};
ghost use Rattle.world_core.specs.Naming.{IsLast, starts_of};

use crate::of_types::{are_of_types, is_of_types};
use crate::parts::{Parts, made};
use farm_lines::Request;
use farm_types::{Attempt, Entry, Items};
use line_answers::farm_core::Farm;
use rqd_core::RqdConfig;
use std::alloc::Global;
use std::marker::Model;
use world_law::{
    Counted, Event, Sent, Told, WorldFault, events_keep_worlds, made_worlds_are_kept,
    worlds_are_as_promised,
};

/// One scheduler, many render hosts, and all lines that were ever sent between them. Whatever happens, the world keeps
/// what every world keeps (`IsKeptWorld` of `world_law`), from which its promises follow.
#[derive(Drop)]
pub struct World {
    parts: Parts,
    // What a host that isn't there has started.
    nothing: Items<Attempt>,
}

impl Model for World {
    ghost use Rattle.std.specs.Prelude.{◌≡◌, []};
    ghost use Rattle.world_law.specs.World as types;
    ghost use Rattle.world_core.specs.Kept.{Keeps};

    ghost Value = { types.World };

    ghost view = { λ w. w.parts };

    ghost invariant = { λ w. Keeps w.parts × (w.nothing ≡ []) };
}

impl World {
    /// A world of a farm and hosts in their first lives, in which operators have sent these requests and nothing has
    /// happened. Nothing is there that a host alone sends: NoSuch comes exactly where a boot or a report is among the
    /// requests. The only other fault is that memory ran out.
    pub fn make(
        alloc: Global,
        farm: Farm,
        hosts: &Items<RqdConfig>,
        requests: &Items<Request>,
    ) -> Result<World, WorldFault>
        ensures { Makes farm hosts.now requests.now result }
    {
        make_world(alloc, farm, hosts.as_slice(), requests.as_slice())
    }

    /// The starts of a host's present life, in order. A host that isn't there has none.
    pub fn started(&self, host: u32) -> &Items<Attempt>
        ensures { result.now ≡ starts_of (slice_get self.now.hosts host) }
    {
        match self.parts.hosts.as_slice().get(host as usize) {
            Some(own) => own.started(),
            None => &self.nothing,
        }
    }

    /// The completions that changed the farm, along the history that the restarts kept.
    pub fn counted(&self) -> &Items<Counted>
        ensures { result.now ≡ self.now.now.counted }
    {
        &self.parts.now.counted
    }

    /// The farm.
    pub fn farm(&self) -> &Farm
        ensures { result.now ≡ self.now.now.farm }
    {
        &self.parts.now.farm
    }

    /// The events that were taken, in order.
    pub fn events(&self) -> &Items<Event>
        ensures { result.now ≡ self.now.events }
    {
        &self.parts.events
    }

    /// The lines to the scheduler, by number.
    pub fn sent(&self) -> &Items<Sent>
        ensures { result.now ≡ self.now.sent }
    {
        &self.parts.sent
    }

    /// The lines to hosts, by number.
    pub fn told(&self) -> &Items<Told>
        ensures { result.now ≡ self.now.told }
    {
        &self.parts.told
    }

    /// The farm of `make`, or that of the last restart, before its entry Opened.
    pub fn opened(&self) -> &Farm
        ensures { result.now ≡ self.now.opened }
    {
        &self.parts.opened
    }

    /// The entries since then, in order.
    pub fn entries(&self) -> &Items<Entry>
        ensures { result.now ≡ self.now.entries }
    {
        &self.parts.entries
    }

    /// An event happens. NoSuch comes exactly where what it names isn't there, UsedNonce exactly where it begins a
    /// host's life with a nonce that the host has used, and NoMemory where memory ran out, once the two are tried: a
    /// commit that the line doesn't have is alone found out later, as it takes memory to know the line's commits. Each
    /// fault leaves the world as before.
    pub fn step(&mut self, alloc: Global, event: &Event) -> Result<(), WorldFault>
        ensures outcome { Outcome self.old event.now result self.new }
        ensures last { IsLast self.old event.now result }
    {
        is_of_types(event);
        events_keep_worlds();
        self.parts.step(alloc, event)
    }

    /// What the world promises: in one life of a host each attempt is started at most once; each counted completion
    /// stands with its exit in a line that its host sent, and came there from the attempt's end, its failed start or a
    /// launch that didn't fit; what a host runs never passes its cores; and the entries since the last start are a
    /// legal and safe run, with no attempt counted twice over all starts.
    pub fn promised(&self)
        ensures { KeepsPromises self.now }
    {
        worlds_are_as_promised();
        let _parts = &self.parts;
    }
}

// The same, for slices.
fn make_world(
    alloc: Global,
    farm: Farm,
    hosts: &[RqdConfig],
    requests: &[Request],
) -> Result<World, WorldFault>
    ensures { Makes farm hosts.now requests.now result }
{
    if is_any_hosts_own(requests) {
        return Err(WorldFault::NoSuch);
    }
    are_of_types(hosts);
    made_worlds_are_kept();
    farm.kept();
    match made(alloc, farm, hosts, requests) {
        Ok(parts) => Ok(World {
            parts,
            nothing: Items::new(alloc),
        }),
        Err(_) => Err(WorldFault::NoMemory),
    }
}

// Whether there is a request among these that hosts alone send.
fn is_any_hosts_own(requests: &[Request]) -> bool
    ensures { result ≡ list_any is_hosts_own requests.now }
{
    requests.iter().any(|request| is_hosts_own(request))
}

// Whether hosts alone send it.
fn is_hosts_own(request: &Request) -> bool
    ensures { result ≡ is_hosts_own request.now }
{
    match request {
        Request::Boot(_) => true,
        Request::Report(_) => true,
        _ => false,
    }
}
