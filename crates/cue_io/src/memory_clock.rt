//! A clock in memory.
ghost use Rattle.std.specs.Prelude.{◌≡◌, ℕ, ◌<◌, [], ◌∷◌, Some, length, IfOk};
ghost use Rattle.cue_io.specs.Readings.{Tells, next_reading, after_reading};

use crate::clock::Clock;
use std::alloc::{AllocError, Global};
use std::marker::Model;

/// A clock that tells the readings of a list, and then its last one for ever.
#[derive(Drop)]
pub struct MemoryClock {
    readings: Vec<u64>,
    at: usize,
}

impl Model for MemoryClock {
    ghost use Rattle.std.specs.Prelude.{ℕ, List, ◌<◌, drop, vec_len};

    ghost Value = { List ℕ };

    ghost view = { λ c. drop c.at c.readings.items };

    ghost invariant = { λ c. c.at < vec_len c.readings };
}

impl MemoryClock {
    /// A clock with these readings, in seconds.
    pub fn make(alloc: Global, readings: &[u64]) -> Result<MemoryClock, AllocError>
        requires { 0 < length readings.now }
        ensures { IfOk result (λ clock. clock ≡ readings.now) }
    {
        Ok(MemoryClock {
            readings: Vec::from_slice(alloc, readings)?,
            at: 0,
        })
    }
}

impl Clock for MemoryClock {
    ghost readings = { λ readings. Some readings };

    fn now(&mut self) -> u64
        ensures tells { Tells (Some self.old) (Some self.new) (result ∷ []) }
        ensures next { result ≡ next_reading self.old }
        ensures after { self.new ≡ after_reading self.old }
    {
        let reading = self.readings[self.at];
        if self.at + 1 < self.readings.len() {
            self.at += 1;
        }
        reading
    }

    fn fork(&self, alloc: Global) -> Result<MemoryClock, AllocError>
        ensures { IfOk result (λ clock. clock ≡ self.now) }
    {
        MemoryClock::make(alloc, &self.readings[self.at..])
    }
}
