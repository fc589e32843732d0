//! Attempts that run.

ghost use Rattle.std.specs.Prelude.{◌≡◌, ◌<◌, ◌^◌};
ghost use Rattle.farm_types.specs.Run as runs;
ghost use Rattle.rqd_core.specs.Life.{cores_of, is_run};

use farm_types::{Attempt, Cores};

/// An attempt that runs, and the cores (hundredths of a core) that it takes.
#[derive(Clone, Copy, Debug, PartialEq, Eq)]
pub struct Running {
    pub attempt: Attempt,
    pub cores: Cores,
}

impl Running {
    // Whether it is this attempt.
    pub(crate) fn is(&self, attempt: &Attempt) -> bool
        ensures { result ≡ runs.is_same self.now.attempt attempt.now }
    {
        is_same(&self.attempt, attempt)
    }
}

/// Whether both name one attempt.
pub(crate) fn is_same(a: &Attempt, b: &Attempt) -> bool
    ensures { result ≡ runs.is_same a.now b.now }
{
    a.slot == b.slot && a.version == b.version
}

/// Whether the attempt is one of these.
pub(crate) fn is_run(attempt: &Attempt, running: &[Running]) -> bool
    ensures { result ≡ is_run attempt.now running.now }
{
    running.iter().any(|run| run.is(attempt))
}

/// The cores (hundredths of a core) that they take.
pub(crate) fn cores_of(running: &[Running]) -> u32
    requires { cores_of running.now < 2 ^ 32 }
    ensures { result ≡ cores_of running.now }
{
    running.iter().map(|run| run.cores.0).sum()
}
