//! What is known of the hosts beside their rows.

ghost use Rattle.std.specs.Prelude.{◌≡◌, ◌<◌, ◌+◌, ◌^◌, ◌++◌, ◌∷◌, [], false, bytes_eq, OnOk, OnErr};
ghost use Rattle.std.specs.List.{list_any};
ghost use Rattle.farm_types.specs.Farm.{changed_at};
ghost use Rattle.farm_types.specs.Sums.{total_at};
ghost use Rattle.row_index.specs.Index.{with_name, with_used};

use crate::names::Names;
use farm_types::{Cores, HostNo, Kb, Text};
use std::alloc::{AllocError, Global};
use std::marker::Model;

/// The hosts' names, and how many cores (hundredths) and how much memory (KB) the attempts on each host use.
#[derive(Drop)]
pub struct KnownHosts {
    names: Names,
    cores: Vec<u64>,
    memory: Vec<u64>,
}

impl Model for KnownHosts {
    ghost use Rattle.row_index.specs.Index.{HostsKnown};

    ghost Value = { HostsKnown };

    ghost view = { λ k. record { names = k.names; cores = k.cores.items; memory = k.memory.items } };
}

impl KnownHosts {
    /// Of no hosts.
    pub fn new(alloc: Global) -> KnownHosts
        ensures { result ≡ record { names = []; cores = []; memory = [] } }
    {
        KnownHosts {
            names: Names::new(alloc),
            cores: Vec::new(alloc),
            memory: Vec::new(alloc),
        }
    }

    /// Whether a host has the name.
    pub fn has_name(&self, name: &Text) -> bool
        ensures { result ≡ list_any (λ other. bytes_eq other name.now) self.now.names }
    {
        self.names.has(name)
    }

    /// The cores that attempts on the host use.
    pub fn cores(&self, host: HostNo) -> u64
        ensures { result ≡ total_at self.now.cores host }
    {
        total_in(self.cores.as_slice(), host.0)
    }

    /// The memory that attempts on the host use.
    pub fn memory(&self, host: HostNo) -> u64
        ensures { result ≡ total_at self.now.memory host }
    {
        total_in(self.memory.as_slice(), host.0)
    }

    /// One more host, of a name that isn't there, on which nothing is used. At an `Err` nothing has changed.
    pub fn add(&mut self, alloc: Global, name: &Text) -> Result<(), AllocError>
        requires new { list_any (λ other. bytes_eq other name.now) self.old.names ≡ false }
        ensures ok { OnOk result (self.new ≡ with_name name.now self.old) }
        ensures err { OnErr result (self.new ≡ self.old) }
    {
        self.cores.reserve(1)?;
        self.memory.reserve(1)?;
        self.names.add(alloc, name)?;
        self.cores.push_reserved(0);
        self.memory.push_reserved(0);
        Ok(())
    }

    /// An attempt on the host uses so much.
    pub fn book(&mut self, host: HostNo, cores: Cores, memory: Kb)
        requires cores { total_at self.old.cores host + cores < 2 ^ 64 }
        requires memory { total_at self.old.memory host + memory < 2 ^ 64 }
        ensures { self.new ≡ with_used host cores memory self.old }
    {
        add_at(&mut self.cores, host.0, u64::from(cores.0));
        add_at(&mut self.memory, host.0, memory.0);
    }
}

// The total at a place, 0 past the last.
fn total_in(totals: &[u64], place: u16) -> u64
    ensures { result ≡ total_at totals.now place }
{
    match totals.get(place as usize) {
        None => 0,
        Some(total) => *total,
    }
}

// The total at a place grows by so much.
fn add_at(totals: &mut Vec<u64>, place: u16, more: u64)
    requires { total_at totals.old.items place + more < 2 ^ 64 }
    ensures { totals.new.items ≡ changed_at totals.old.items place (λ n. n + more) }
{
    let at = place as usize;
    if at < totals.len() {
        totals[at] += more;
    }
}
