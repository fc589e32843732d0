//! The hosts, in the order of their numbers.

ghost use Rattle.std.specs.Prelude.{◌≡◌, ◌≤◌, ◌<◌, [], length, slice_get, option_copied, IfOk, IfSome};
ghost use Rattle.farm_types.specs.Farm.{host_from};
ghost use Rattle.farm_types.specs.declared.limits.TheConstants.{MOST_HOSTS};

use farm_types::{HostNo, HostRow, MOST_HOSTS};
use indexmap::IndexSet;
use std::alloc::{AllocError, Global};
use std::marker::Model;

/// The hosts, each at its number, 4,096 at most. Contracts see them as a list. Beside the rows are kept their names, so
/// that a host is found without a walk, and what the walks over all hosts read: for each host that is up the moment
/// when it was last heard, and the greatest number for one that is down. None of these moments is before `oldest`, so that
/// most questions for silent hosts are answered without a walk.
#[derive(Debug, Drop)]
pub struct Hosts {
    pub(crate) rows: Vec<HostRow>,
    pub(crate) names: IndexSet<String>,
    pub(crate) watched: Vec<u64>,
    pub(crate) oldest: u64,
}

impl Model for Hosts {
    ghost use Rattle.std.specs.Prelude.{List};
    ghost use Rattle.farm_types.specs.declared.rows.HostRow as row;

    ghost Value = { List row.HostRow };

    ghost use Rattle.host_book.specs.Inside.{KeepsHosts};

    ghost view = { λ book. book.rows.items };

    ghost invariant = { KeepsHosts };
}

impl Hosts {
    /// No hosts. It takes the memory of all at once.
    pub fn make(alloc: Global) -> Result<Hosts, AllocError>
        ensures { IfOk result (λ b. b ≡ []) }
    {
        Ok(Hosts {
            rows: Vec::with_capacity(alloc, MOST_HOSTS as usize)?,
            names: IndexSet::with_capacity(alloc, MOST_HOSTS as usize)?,
            watched: Vec::with_capacity(alloc, MOST_HOSTS as usize)?,
            oldest: u64::MAX,
        })
    }

    /// How many hosts there are.
    pub fn count(&self) -> usize
        ensures value { result ≡ length self.now }
        ensures within { result ≤ MOST_HOSTS }
    {
        self.rows.len()
    }

    /// The number of the host of that name.
    pub fn find(&self, name: &str) -> Option<HostNo>
        ensures value { result ≡ host_from 0 name.now self.now }
        ensures within { IfSome result (λ host. host < length self.now) }
    {
        let place = self.names.get_index_of(name)?;
        Some(HostNo(place as u16))
    }

    /// The host of that number.
    pub fn row(&self, host: HostNo) -> Option<&HostRow>
        ensures { option_copied result ≡ slice_get self.now host }
    {
        row_at(self.rows.as_slice(), host.0)
    }
}

// The row at a place.
fn row_at(rows: &[HostRow], place: u16) -> Option<&HostRow>
    ensures { option_copied result ≡ slice_get rows.now place }
{
    rows.get(place as usize)
}
