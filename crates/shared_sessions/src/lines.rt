//! The lines of one connection.

ghost use Rattle.std.specs.Prelude.{◌≡◌};
ghost use mathlib.Core.List.{IsPrefix};
ghost use Rattle.cue_io.specs.Reader.{new_reader};
ghost use Rattle.farm_lines.specs.declared.limits.TheConstants.{LINE_LIMIT};
ghost use Rattle.fault_counts.specs.Counts.{HasRisen};
ghost use Rattle.line_exchanges.specs.Calls.{HasMoved, streams};
ghost use Rattle.shared_lines.specs.shared_rounds.specs.shared_bot.specs.Passes.{IsFree};
ghost use Rattle.shared_sessions.specs.Sessions.{HasServed, ServedCall};

use crate::exchange::exchange;
use cue_io::{Clock, LineReader, Sink, Source};
use farm_keeper::Keeper;
use json::Scratch;
use line_exchanges::Exchanged;
use shared_lines::line_answers::booking_recorder::Pass;
use shared_lines::shared_rounds::Gate;
use shared_lines::shared_rounds::shared_bot::{Bot, Opened};
use std::alloc::Global;
use std::sync::Wait;

/// Answers line after line until the source ends or an I/O error comes, and says which.
pub(crate) fn answer_lines<S: Source, W: Sink, K: Keeper, C: Clock, G: Gate, N: Opened, R: Wait>(
    rt: &R,
    alloc: Global,
    bot: &Bot<K, N>,
    pass: &mut Pass<N>,
    gate: &mut G,
    clock: &mut C,
    source: &mut S,
    sink: &mut W,
    reader: &mut LineReader,
    scratch: &mut Scratch,
) -> Exchanged
    requires reader { reader.old ≡ new_reader LINE_LIMIT }
    requires free { IsFree N.opening pass.old.view }
    ensures free { IsFree N.opening pass.new.view }
    ensures grows { IsPrefix pass.old.view.journal pass.new.view.journal }
    ensures ends { (call : ServedCall) × HasMoved
        (streams (S.left source.old) (S.faults source.old) (W.written sink.old) (W.faults sink.old) (C.readings clock.old) pass.old.faults)
        (streams (S.left source.new) (S.faults source.new) (W.written sink.new) (W.faults sink.new) (C.readings clock.new) pass.new.faults) call
        × HasServed result pass.old call pass.new (S.left source.new) }
    ensures read { result ≡ Exchanged.Read → HasRisen (S.faults source.old) (S.faults source.new) }
    ensures write { result ≡ Exchanged.Write → HasRisen (W.faults sink.old) (W.faults sink.new) }
{
    'exchanges: loop {
        match exchange(
            rt, alloc, bot, pass, gate, clock, source, sink, reader, scratch,
        ) {
            Exchanged::Went => {}
            ended => return ended,
        }
    }
}
