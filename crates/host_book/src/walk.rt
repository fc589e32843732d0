//! Which hosts are silent, and how many.

ghost use Rattle.std.specs.Prelude.{◌≡◌, filter, length, slice_get};
ghost use Rattle.farm_types.specs.Farm.{for_some};
ghost use Rattle.farm_types.specs.Hosts.{count_unheard, is_unheard};
ghost use Rattle.host_book.specs.Inside.{is_past};

use crate::hosts::Hosts;
use crate::life::life_of;
use farm_types::{HostNo, SILENT_SECONDS};

impl Hosts {
    /// Whether the host is up, and `now` is more than 300 seconds past the moment when it was last heard.
    pub fn expired(&self, host: HostNo, now: u64) -> bool
        ensures { result ≡ for_some (slice_get self.now host) (is_unheard now) }
    {
        match self.row(host) {
            None => false,
            Some(row) => life_of(row).is_silent(now),
        }
    }

    /// How many hosts are so.
    pub fn count_expired(&self, now: u64) -> u32
        ensures { result ≡ count_unheard now self.now }
    {
        if !self.may_expire(now) {
            return 0;
        }
        count_past(self.watched.as_slice(), now) as u32
    }
}

// Whether more than 300 seconds have passed.
pub(crate) fn is_past(heard: u64, now: u64) -> bool
    ensures { result ≡ is_past now heard }
{
    now.saturating_sub(heard) > SILENT_SECONDS
}

// For how many it is so.
fn count_past(watched: &[u64], now: u64) -> usize
    ensures { result ≡ length (filter (is_past now) watched.now) }
{
    watched.iter().filter(|heard| is_past(**heard, now)).count()
}
