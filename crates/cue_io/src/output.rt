//! Writing a whole piece.
ghost use Rattle.std.specs.Prelude.{◌≤◌, OnOk, OnErr};
ghost use Rattle.fault_counts.specs.Counts.{HasRisen};
ghost use Rattle.cue_io.specs.Output.{Adds, AddsPart};

use crate::sink::{Sink, SinkFault};

/// Writes all of `piece`. Failed comes only where the sink's count of faults rose in this call: where a write failed, or
/// took nothing. Then less than the whole piece was written, from its front.
pub fn write_all<W: Sink>(sink: &mut W, piece: &[u8]) -> Result<(), SinkFault>
    ensures ok { OnOk result (Adds (W.written sink.old) (W.written sink.new) piece.now) }
    ensures err { OnErr result (AddsPart (W.written sink.old) (W.written sink.new) piece.now) }
    ensures cause { OnErr result (HasRisen (W.faults sink.old) (W.faults sink.new)) }
    ensures rises { W.faults sink.old ≤ W.faults sink.new }
{
    let mut at = 0;
    'pieces: while at < piece.len() {
        let count = sink.write(&piece[at..])?;
        if count == 0 {
            return Err(SinkFault::Failed);
        }
        at += count;
    }
    Ok(())
}
