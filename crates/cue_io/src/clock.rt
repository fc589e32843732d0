//! What time it is.
ghost use Rattle.std.specs.Prelude.{◌≡◌, ℕ, List, [], ◌∷◌, Option, IfOk};
ghost use Rattle.cue_io.specs.Readings.{Tells};

use std::alloc::{AllocError, Global};

/// A clock, in seconds. It tells the `readings` to come where it can: a list, its last reading repeated for ever.
pub trait Clock {
    ghost readings: { Self → Option (List ℕ) };

    /// The next reading.
    fn now(&mut self) -> u64
        ensures { Tells (readings self.old) (readings self.new) (result ∷ []) };

    /// A clock of its own that has the same readings to come.
    fn fork(&self, alloc: Global) -> Result<Self, AllocError>
    where
        Self: Sized,
        ensures { IfOk result (λ clock. readings clock ≡ readings self.now) };
}
