//! The machine's clock.
ghost use Rattle.std.specs.Prelude.{◌≡◌, ◌≤◌, ◌/◌, max, [], ◌∷◌, None, IfOk};
ghost use Rattle.cue_io.specs.Readings.{Tells};
ghost use Rattle.std.specs.Time.{system_time_nanos};

use crate::clock::Clock;
use std::alloc::{AllocError, Global};
use std::marker::Model;
use std::rt;
use std::time::{SystemTime, UNIX_EPOCH};

/// The machine's clock, in seconds since 1970. It never goes back: where the machine's time does, or can't be read, the
/// last reading stays, at first 0. It is seen as its last reading.
#[derive(Drop)]
pub struct SystemClock<R> {
    rt: R,
    last: u64,
}

impl<R> Model for SystemClock<R> {
    ghost use Rattle.std.specs.Prelude.{ℕ};

    ghost Value = { ℕ };

    ghost view = { λ clock. clock.last };
}

impl<R> SystemClock<R> {
    /// A clock that hasn't been read yet.
    pub fn make(rt: R) -> SystemClock<R>
        ensures { result ≡ 0 }
    {
        SystemClock { rt, last: 0 }
    }
}

impl<R: rt::Clock + Clone + Drop> Clock for SystemClock<R> {
    ghost readings = { λ _. None };

    fn now(&mut self) -> u64
        ensures tells { Tells None None (result ∷ []) }
        ensures last { self.new ≡ result }
        ensures never_back { self.old ≤ result }
    {
        if let Ok(time) = SystemTime::now(&self.rt) {
            self.last = later_of(self.last, time);
        }
        self.last
    }

    fn fork(&self, _alloc: Global) -> Result<SystemClock<R>, AllocError>
        ensures { IfOk result (λ clock. clock ≡ self.now) }
    {
        Ok(SystemClock {
            rt: self.rt.clone()?,
            last: self.last,
        })
    }
}

/// The later one of a reading and a time, in whole seconds since 1970.
fn later_of(last: u64, time: SystemTime) -> u64
    ensures { result ≡ max last (system_time_nanos time / 1_000_000_000) }
{
    match time.duration_since(UNIX_EPOCH) {
        Ok(since) => last.max(since.as_secs()),
        Err(_) => last,
    }
}
