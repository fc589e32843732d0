//! Hosts, shows, limits and allocations by name, facilities, and whether an attempt is live.

ghost use Rattle.std.specs.Prelude.{◌≡◌, ◌<◌, length, IfSome};
ghost use Rattle.farm_types.specs.Farm.{alloc_named, has_facility, host_named, limit_named, show_named};
ghost use Rattle.farm_types.specs.Step.{is_live, is_attempt};

use crate::books::Books;
use farm_types::{AllocNo, Attempt, HostNo, LimitNo, ProcRow, ShowNo, Text, Version};

impl Books {
    /// The number of the host of that name.
    pub fn host_named(&self, name: &str) -> Option<HostNo>
        ensures value { result ≡ host_named self.now.farm name.now }
        ensures within { IfSome result (λ host. host < length self.now.farm.hosts) }
    {
        self.hosts.find(name)
    }

    /// The number of the show of that name.
    pub fn show_named(&self, name: &str) -> Option<ShowNo>
        ensures { result ≡ show_named self.now.farm name.now }
    {
        self.shows.find(name)
    }

    /// The number of the limit of that name.
    pub fn limit_named(&self, name: &str) -> Option<LimitNo>
        ensures { result ≡ limit_named self.now.farm name.now }
    {
        self.limits.find(name)
    }

    /// The number of the allocation of that name, `facility.tag`.
    pub fn alloc_named(&self, name: &str) -> Option<AllocNo>
        ensures { result ≡ alloc_named self.now.farm name.now }
    {
        self.allocs.find(name)
    }

    /// Whether an allocation has the facility.
    pub fn has_facility(&self, facility: &Text) -> bool
        ensures { result ≡ has_facility self.now.farm facility.now }
    {
        self.allocs.has_facility(facility.as_str())
    }

    /// Whether the attempt is live, on that host in that boot of it.
    pub fn is_live(&self, host: HostNo, boot: u32, attempt: Attempt) -> bool
        ensures { result ≡ is_live self.now.farm host boot attempt.slot attempt.version }
    {
        let Some(row) = self.slot(attempt.slot) else {
            return false;
        };
        let Some(live) = row.proc else {
            return false;
        };
        is_attempt(host, boot, attempt.version, &live)
    }
}

/// Whether the live attempt has that version, host and boot.
pub fn is_attempt(host: HostNo, boot: u32, version: Version, live: &ProcRow) -> bool
    ensures { result ≡ is_attempt host boot version live.now }
{
    live.version == version && live.host == host && live.boot == boot
}
