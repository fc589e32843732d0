//! Any writer of std as a sink.
ghost use Rattle.std.specs.Prelude.{◌≡◌, ◌<◌, ◌≤◌, None, if◌then◌else◌, length, take, IfOk, OnErr, IsSome};
ghost use Rattle.cue_io.specs.Adapters.{Outlet, flushed};
ghost use Rattle.fault_counts.specs.Counts.{HasRisen, incremented};
ghost use Rattle.cue_io.specs.Memory.{takes_none};
ghost use Rattle.cue_io.specs.Output.{Adds};
ghost use Rattle.cue_io.specs.declared.sink.SinkFault.TheVariants.{Failed};

use crate::sink::{Sink, SinkFault};
use std::io::Write;
use std::marker::Model;

/// A sink over a writer, as standard output, a stream or bytes in memory. What a write took is flushed before it returns,
/// so that a reply is on its way before the program waits for more input.
///
/// Bytes count as written once they are flushed. Where a flush fails, the call is Failed, the bytes that it took stay
/// unflushed, and each later call is Failed and leaves the writer alone.
///
/// What was written is what its writer holds, but for the unflushed bytes, where it was made by `telling`. A writer that
/// tells nothing of its bytes may begin to at any write, which a sink may not, so that one made by `make` tells nothing.
/// Both write alike.
#[derive(Drop)]
pub struct OutputSink<W: Write> {
    writer: W,
    tells: bool,
    unflushed: usize,
    faults: u64,
}

impl<W: Write> Model for OutputSink<W> {
    ghost use Rattle.cue_io.specs.Adapters.{Outlet, told, IsTold};

    ghost Value = { Outlet };

    ghost view = { λ s. record { held = told s.tells (W.contents s.writer); unflushed = s.unflushed; faults = s.faults } };

    ghost invariant = { λ s. IsTold s.tells (W.contents s.writer) };
}

impl<W: Write> OutputSink<W> {
    /// A sink over `writer` that tells nothing of its bytes, with no fault so far.
    pub fn make(writer: W) -> OutputSink<W>
        ensures { result ≡ record { held = None; unflushed = 0; faults = 0 } }
    {
        OutputSink {
            writer,
            tells: false,
            unflushed: 0,
            faults: 0,
        }
    }

    /// A sink over a `writer` that tells its bytes, with no fault so far.
    pub fn telling(writer: W) -> OutputSink<W>
        requires { IsSome (W.contents writer) }
        ensures { result ≡ record { held = W.contents writer; unflushed = 0; faults = 0 } }
    {
        OutputSink {
            writer,
            tells: true,
            unflushed: 0,
            faults: 0,
        }
    }

    /// How many writes failed, or took nothing of a piece that wasn't empty.
    pub fn faults(&self) -> u64
        ensures { result ≡ self.now.faults }
    {
        self.faults
    }
}

impl<W: Write + Drop> Sink for OutputSink<W> {
    ghost written = { λ s. flushed s.held s.unflushed };

    ghost faults = { λ s. s.faults };

    fn write(&mut self, piece: &[u8]) -> Result<usize, SinkFault>
        ensures count { IfOk result (λ n. n ≤ length piece.now) }
        ensures adds { IfOk result (λ n. Adds (flushed self.old.held self.old.unflushed)
            (flushed self.new.held self.new.unflushed) (take n piece.now)) }
        ensures none_taken { IfOk result (λ n. n ≡ 0 → 0 < length piece.now →
            HasRisen self.old.faults self.new.faults) }
        ensures kept { OnErr result (flushed self.new.held self.new.unflushed ≡ flushed self.old.held self.old.unflushed) }
        ensures cause { OnErr result (HasRisen self.old.faults self.new.faults) }
        ensures rises { self.old.faults ≤ self.new.faults }

        // exactly what is counted, and that nothing is written after a flush that failed
        ensures ok { IfOk result (λ n. self.new.faults ≡
            (if takes_none n (length piece.now) then incremented self.old.faults else self.old.faults)) }
        ensures err { OnErr result (self.new.faults ≡ incremented self.old.faults) }
        ensures stays { 0 < self.old.unflushed →
            (result ≡ Err Failed) × (self.new ≡ record self.old { faults = incremented self.old.faults }) }
    {
        if 0 < self.unflushed {
            self.faults = self.faults.saturating_add(1);
            return Err(SinkFault::Failed);
        }
        let Ok(count) = self.writer.write(piece) else {
            self.faults = self.faults.saturating_add(1);
            return Err(SinkFault::Failed);
        };
        if self.writer.flush().is_err() {
            self.unflushed = count;
            self.faults = self.faults.saturating_add(1);
            return Err(SinkFault::Failed);
        }
        if count == 0 && !piece.is_empty() {
            self.faults = self.faults.saturating_add(1);
        }
        Ok(count)
    }
}
