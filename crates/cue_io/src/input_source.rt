//! Any reader of std as a source.
ghost use Rattle.std.specs.Prelude.{◌≡◌, ◌<◌, ◌≤◌, true, false, None, length, take, IfOk, OnOk, OnErr, MatchResult, IsSome};
ghost use Rattle.cue_io.specs.Adapters.{Inlet};
ghost use Rattle.fault_counts.specs.Counts.{HasRisen, incremented};
ghost use Rattle.cue_io.specs.Input.{Takes, IsAtEnd};

use crate::source::{Source, SourceFault};
use std::io::Read;
use std::marker::Model;

/// A source over a reader, as standard input, a stream or bytes in memory.
///
/// What it has left is what its reader has left, where it was made by `telling`. A reader that tells nothing of its bytes
/// may begin to at any read, which a source may not, so that one made by `make` tells nothing. Both read alike.
#[derive(Drop)]
pub struct InputSource<R: Read> {
    reader: R,
    tells: bool,
    last: usize,
    faults: u64,
}

impl<R: Read> Model for InputSource<R> {
    ghost use Rattle.cue_io.specs.Adapters.{Inlet, told, IsTold};

    ghost Value = { Inlet };

    ghost view = { λ s. record { left = told s.tells (R.remaining s.reader); last = s.last; faults = s.faults } };

    ghost invariant = { λ s. IsTold s.tells (R.remaining s.reader) };
}

impl<R: Read> InputSource<R> {
    /// A source over `reader` that tells nothing of its bytes, with no fault so far.
    pub fn make(reader: R) -> InputSource<R>
        ensures { result ≡ record { left = None; last = 0; faults = 0 } }
    {
        InputSource {
            reader,
            tells: false,
            last: 0,
            faults: 0,
        }
    }

    /// A source over a `reader` that tells its bytes, with no fault so far.
    pub fn telling(reader: R) -> InputSource<R>
        requires { IsSome (R.remaining reader) }
        ensures { result ≡ record { left = R.remaining reader; last = 0; faults = 0 } }
    {
        InputSource {
            reader,
            tells: true,
            last: 0,
            faults: 0,
        }
    }

    /// How many reads failed.
    pub fn faults(&self) -> u64
        ensures { result ≡ self.now.faults }
    {
        self.faults
    }
}

impl<R: Read + Drop> Source for InputSource<R> {
    ghost left = { λ s. s.left };

    ghost last = { λ s. s.last };

    ghost faults = { λ s. s.faults };

    fn read(&mut self, into: &mut [u8]) -> Result<usize, SourceFault>
        ensures count { IfOk result (λ n. n ≤ length into.new) }
        ensures takes { IfOk result (λ n. Takes self.old.left self.new.left (take n into.new)) }
        ensures end { IfOk result (λ n. n ≡ 0 → 0 < length into.new → IsAtEnd self.new.left) }
        ensures brought { MatchResult result (λ n. self.new.last ≡ n) (λ _. self.new.last ≡ 0) }
        ensures kept { OnErr result (self.new.left ≡ self.old.left) }
        ensures cause { OnErr result (HasRisen self.old.faults self.new.faults) }
        ensures rises { self.old.faults ≤ self.new.faults }

        // exactly what is counted
        ensures ok { OnOk result (self.new.faults ≡ self.old.faults) }
        ensures err { OnErr result (self.new.faults ≡ incremented self.old.faults) }
    {
        match self.reader.read(into) {
            Ok(count) => {
                self.last = count;
                Ok(count)
            }
            Err(_) => {
                self.last = 0;
                self.faults = self.faults.saturating_add(1);
                Err(SourceFault::Failed)
            }
        }
    }
}
