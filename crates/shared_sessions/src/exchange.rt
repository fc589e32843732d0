//! One exchange: a line is read, answered beside others, and its reply written.

ghost use Rattle.std.specs.Prelude.{◌≡◌, ◌≤◌, ℕ, List};
ghost use mathlib.Core.List.{IsPrefix};
ghost use Rattle.cue_io.specs.Input.{Takes};
ghost use Rattle.cue_io.specs.Output.{Adds};
ghost use Rattle.cue_io.specs.Reader.{IsPending};
ghost use Rattle.cue_io.specs.Readings.{Tells};
ghost use Rattle.farm_lines.specs.declared.limits.TheConstants.{LINE_LIMIT};
ghost use Rattle.fault_counts.specs.Counts.{HasRisen};
ghost use Rattle.shared_lines.specs.shared_rounds.specs.shared_bot.specs.Passes.{IsFree};
ghost use Rattle.shared_sessions.specs.Steps.{IsExchange};

use cue_io::{Clock, Line, LineFault, LineReader, Sink, Source};
use farm_keeper::Keeper;
use json::Scratch;
use line_exchanges::{Exchanged, send};
use shared_lines::answer_beside;
use shared_lines::line_answers::ReplyLine;
use shared_lines::line_answers::booking_recorder::Pass;
use shared_lines::shared_rounds::Gate;
use shared_lines::shared_rounds::shared_bot::{Bot, Opened};
use std::alloc::Global;
use std::sync::Wait;

/// Reads one line, answers it beside others, and writes its reply.
pub(crate) fn exchange<S: Source, W: Sink, K: Keeper, C: Clock, G: Gate, N: Opened, R: Wait>(
    rt: &R,
    alloc: Global,
    bot: &Bot<K, N>,
    pass: &mut Pass<N>,
    gate: &mut G,
    clock: &mut C,
    source: &mut S,
    sink: &mut W,
    reader: &mut LineReader,
    scratch: &mut Scratch,
) -> Exchanged
    requires limit { reader.old.limit ≡ LINE_LIMIT }
    requires pending { (pending : List ℕ) × IsPending reader.old pending }
    requires free { IsFree N.opening pass.old.view }
    ensures free { IsFree N.opening pass.new.view }
    ensures grows { IsPrefix pass.old.view.journal pass.new.view.journal }
    ensures step { (took wrote seen : List ℕ) × Takes (S.left source.old) (S.left source.new) took × Adds (W.written sink.old) (W.written sink.new) wrote
        × Tells (C.readings clock.old) (C.readings clock.new) seen
        × IsExchange result reader.old reader.new (S.left source.new) pass.old pass.new took wrote seen }
    ensures read { result ≡ Exchanged.Read → HasRisen (S.faults source.old) (S.faults source.new) }
    ensures write { result ≡ Exchanged.Write → HasRisen (W.faults sink.old) (W.faults sink.new) }
    ensures source { S.faults source.old ≤ S.faults source.new }
    ensures sink { W.faults sink.old ≤ W.faults sink.new }
{
    match reader.next(source) {
        Ok(Line::Bytes(line)) => {
            let moment = clock.now();
            let reply = answer_beside(rt, alloc, bot, pass, gate, line, scratch, moment);
            send(sink, reply.bytes())
        }
        Ok(Line::TooLong) => {
            let _moment = clock.now();
            send(sink, ReplyLine::TooLong.bytes())
        }
        Ok(Line::End) => Exchanged::End,
        Err(LineFault::Read) => Exchanged::Read,
        Err(LineFault::Spent) => Exchanged::Spent,
    }
}
