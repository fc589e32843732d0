//! Replies as they are written.

ghost use Rattle.std.specs.Prelude.{◌≡◌, ◌≤◌, ℕ, List};
ghost use Rattle.fault_counts.specs.Counts.{HasRisen};
ghost use Rattle.cue_io.specs.Output.{Adds};
ghost use Rattle.line_exchanges.specs.Exchanges.{Sends};

use crate::exchanged::Exchanged;
use cue_io::{Sink, write_all};

/// Writes a reply, its newline too, and says how the exchange went.
pub fn send<W: Sink>(sink: &mut W, reply: &[u8]) -> Exchanged
    ensures sends { (wrote : List ℕ) × Adds (W.written sink.old) (W.written sink.new) wrote × Sends result reply.now wrote }
    ensures cause { result ≡ Exchanged.Write → HasRisen (W.faults sink.old) (W.faults sink.new) }
    ensures rises { W.faults sink.old ≤ W.faults sink.new }
{
    match write_all(sink, reply) {
        Ok(()) => Exchanged::Went,
        Err(_) => Exchanged::Write,
    }
}
