//! A session of one connection.

ghost use Rattle.std.specs.Prelude.{◌≡◌};
ghost use mathlib.Core.List.{IsPrefix};
ghost use Rattle.booking_rule.specs.Link.{farm_of};
ghost use Rattle.farm_types.specs.Run.{IsLegal, IsSafe};
ghost use Rattle.fault_counts.specs.Counts.{HasRisen};
ghost use Rattle.line_exchanges.specs.Calls.{streams};
ghost use Rattle.shared_lines.specs.shared_rounds.specs.shared_bot.specs.Passes.{IsFree};
ghost use Rattle.shared_sessions.specs.Sessions.{IsServed, ServedCall, ended_by};

use crate::lines::answer_lines;
use crate::session_end::SessionEnd;
use cue_io::{Clock, LineReader, Sink, Source};
use farm_keeper::Keeper;
use farm_law::legal_runs_are_safe;
use farm_lines::LINE_LIMIT;
use json::Scratch;
use line_exchanges::Exchanged;
use shared_lines::line_answers::booking_recorder::Pass;
use shared_lines::shared_rounds::Gate;
use shared_lines::shared_rounds::shared_bot::{Bot, Opened};
use std::alloc::Global;
use std::sync::Wait;

/// Answers the lines of one connection beside others, each at the clock's next reading, until the source ends or an I/O error comes, and says why it ended.
/// The pass holds nothing, before and after. The call waits for the lock that the others take too.
pub fn serve_one<S: Source, W: Sink, K: Keeper, C: Clock, G: Gate, N: Opened, R: Wait>(
    rt: &R,
    alloc: Global,
    bot: &Bot<K, N>,
    pass: &mut Pass<N>,
    gate: &mut G,
    clock: &mut C,
    source: &mut S,
    sink: &mut W,
) -> SessionEnd
    requires free { IsFree N.opening pass.old.view }
    ensures free { IsFree N.opening pass.new.view }
    ensures grows { IsPrefix pass.old.view.journal pass.new.view.journal }

    // What the pass has then seen is one legal history, and a safe one.
    ensures legal { IsLegal (farm_of N.opening) pass.new.view.journal }
    ensures safe { IsSafe (farm_of N.opening) pass.new.view.journal }

    // The lines are those of the bytes taken, and what was written are their replies, each of which was answered beside others at the clock's next reading.
    ensures served { (call : ServedCall) × IsServed result
        (streams (S.left source.old) (S.faults source.old) (W.written sink.old) (W.faults sink.old) (C.readings clock.old) pass.old.faults)
        (streams (S.left source.new) (S.faults source.new) (W.written sink.new) (W.faults sink.new) (C.readings clock.new) pass.new.faults)
        pass.old call pass.new }

    // A failed read or write is told only where the source's or the sink's count of faults rose in this call.
    ensures read { result ≡ SessionEnd.Read → HasRisen (S.faults source.old) (S.faults source.new) }
    ensures write { result ≡ SessionEnd.Write → HasRisen (W.faults sink.old) (W.faults sink.new) }
{
    legal_runs_are_safe();
    let Ok(mut reader) = LineReader::make(alloc, LINE_LIMIT as usize) else {
        return SessionEnd::Memory;
    };
    let mut scratch = Scratch::new(alloc);
    let ended = answer_lines(
        rt,
        alloc,
        bot,
        pass,
        gate,
        clock,
        source,
        sink,
        &mut reader,
        &mut scratch,
    );
    ended_by(ended)
}

// How the session ended, by its last exchange.
fn ended_by(ended: Exchanged) -> SessionEnd
    ensures { result ≡ ended_by ended }
{
    match ended {
        Exchanged::Went | Exchanged::End => SessionEnd::End,
        Exchanged::Read => SessionEnd::Read,
        Exchanged::Write => SessionEnd::Write,
        Exchanged::Spent => SessionEnd::Spent,
    }
}
