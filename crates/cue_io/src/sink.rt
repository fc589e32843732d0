//! Where bytes go.
ghost use Rattle.std.specs.Prelude.{◌≡◌, ℕ, ◌<◌, ◌≤◌, List, Option, length, take, IfOk, OnErr};
ghost use Rattle.fault_counts.specs.Counts.{HasRisen};
ghost use Rattle.cue_io.specs.Output.{Adds};

use std::error::Error;
use std::fmt;

/// Why a write took nothing.
#[derive(Clone, Copy, Debug, PartialEq, Eq)]
pub enum SinkFault {
    Failed,
}

impl fmt::Display for SinkFault {
    fn fmt<W: fmt::Write>(&self, f: &mut fmt::Formatter<W>) -> fmt::Result {
        match self {
            SinkFault::Failed => write!(f, "the write failed"),
        }
    }
}

impl Error for SinkFault {}

/// A sink of bytes. It tells what was `written` where it can, and counts its faults.
pub trait Sink {
    ghost written: { Self → Option (List ℕ) };

    ghost faults: { Self → ℕ };

    /// Takes bytes from the front of `piece` and says how many. The call is Failed only where the count of faults rises
    /// in it, and then nothing is added. The count also rises where nothing is taken of a piece that isn't empty.
    fn write(&mut self, piece: &[u8]) -> Result<usize, SinkFault>
        ensures count { IfOk result (λ n. n ≤ length piece.now) }
        ensures adds { IfOk result (λ n. Adds (written self.old) (written self.new) (take n piece.now)) }
        ensures none_taken { IfOk result (λ n. n ≡ 0 → 0 < length piece.now →
            HasRisen (faults self.old) (faults self.new)) }
        ensures kept { OnErr result (written self.new ≡ written self.old) }
        ensures cause { OnErr result (HasRisen (faults self.old) (faults self.new)) }
        ensures rises { faults self.old ≤ faults self.new };
}
