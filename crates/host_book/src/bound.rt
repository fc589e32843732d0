//! A moment that no host's last word is before.

ghost use Rattle.std.specs.Prelude.{◌≡◌, false};
ghost use Rattle.farm_types.specs.Hosts.{count_unheard};
ghost use Rattle.host_book.specs.Inside.{least_of};

use crate::hosts::Hosts;
use crate::walk::is_past;

impl Hosts {
    /// Whether a host may be silent at the moment: `false` at once where the bound shows that none is. After `true` there may
    /// still be none.
    pub fn may_expire(&self, now: u64) -> bool
        ensures quiet { result ≡ false → count_unheard now self.now ≡ 0 }
    {
        is_past(self.oldest, now)
    }

    /// Looks again how long ago the hosts were heard, where the bound is more than 300 seconds before the moment. As hosts
    /// are heard the bound stays behind, and would then cost each line a walk over all hosts: so it costs one.
    pub fn watch(&mut self, now: u64)
        ensures { self.new ≡ self.old }
    {
        if is_past(self.oldest, now) {
            self.oldest = least(self.watched.as_slice());
        }
    }
}

/// The least of the moments, and the greatest number where there is none.
pub(crate) fn least(watched: &[u64]) -> u64
    ensures { result ≡ least_of watched.now }
{
    watched
        .iter()
        .fold(u64::MAX, |least, heard| least.min(*heard))
}
