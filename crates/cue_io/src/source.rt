//! Where bytes come from.
ghost use Rattle.std.specs.Prelude.{◌≡◌, ℕ, ◌<◌, ◌≤◌, List, Option, length, take, IfOk, OnErr, MatchResult};
ghost use Rattle.fault_counts.specs.Counts.{HasRisen};
ghost use Rattle.cue_io.specs.Input.{Takes, IsAtEnd};

use std::error::Error;
use std::fmt;

/// Why a read gave nothing.
#[derive(Clone, Copy, Debug, PartialEq, Eq)]
pub enum SourceFault {
    Failed,
}

impl fmt::Display for SourceFault {
    fn fmt<W: fmt::Write>(&self, f: &mut fmt::Formatter<W>) -> fmt::Result {
        match self {
            SourceFault::Failed => write!(f, "the read failed"),
        }
    }
}

impl Error for SourceFault {}

/// A source of bytes. It tells what it has `left` where it can, how many bytes the `last` read gave, and counts its
/// faults.
pub trait Source {
    ghost left: { Self → Option (List ℕ) };

    ghost last: { Self → ℕ };

    ghost faults: { Self → ℕ };

    /// Puts bytes at the front of `into` and says how many. None of them, where `into` isn't empty, is the end of the
    /// input. The call is Failed only where the count of faults rises in it, and then nothing is taken.
    fn read(&mut self, into: &mut [u8]) -> Result<usize, SourceFault>
        ensures count { IfOk result (λ n. n ≤ length into.new) }
        ensures takes { IfOk result (λ n. Takes (left self.old) (left self.new) (take n into.new)) }
        ensures end { IfOk result (λ n. n ≡ 0 → 0 < length into.new → IsAtEnd (left self.new)) }
        ensures brought { MatchResult result (λ n. last self.new ≡ n) (λ _. last self.new ≡ 0) }
        ensures kept { OnErr result (left self.new ≡ left self.old) }
        ensures cause { OnErr result (HasRisen (faults self.old) (faults self.new)) }
        ensures rises { faults self.old ≤ faults self.new };
}
