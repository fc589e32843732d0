//! One round of the daemon.

ghost use Rattle.std.specs.Prelude.{◌≡◌, ◌≤◌, ◌++◌, ◌∷◌, [], List, Result, IfOk};
ghost use Rattle.std.specs.Result.{IsErrOf};
ghost use Rattle.std.specs.Option.{IfSome};
ghost use Rattle.fault_counts.specs.Counts.{HasRisen};
ghost use Rattle.cue_io.specs.Output.{Adds};
ghost use Rattle.cue_io.specs.Reader.{Given, Moves};
ghost use Rattle.rqd_core.specs.Keeping.{AreStarted};
ghost use Rattle.rqd_core.specs.Replies.{take_line};
ghost use Rattle.cue_io.specs.Growth.{Grows};
ghost use Rattle.rqd_launcher.specs.Carries.{Carries, HaveCauses};
ghost use Rattle.rqd_launcher.specs.declared.call.SpawnCall.{SpawnCall};
ghost use Rattle.rqd_session.specs.Steps.{Done, Gave, GaveSo, Awaits, IsOrdered, IsSent, Makes, tasks_ordered};

use crate::cut::Cut;
use cue_io::{Line, LineFault, LineReader, Sink, Source, write_all};
use farm_types::Text;
use rqd_core::{Orders, Rqd, RqdFault};
use rqd_launcher::{Rest, Spawner, carry_out, poll_all};
use std::alloc::{AllocError, Global};

/// Makes one round of a life: polls what runs, sends a line, takes a reply line, does what that orders, and rests.
pub(crate) fn run_round<S: Source, W: Sink, P: Spawner, R: Rest>(
    alloc: Global,
    rqd: &mut Rqd,
    reader: &mut LineReader,
    source: &mut S,
    sink: &mut W,
    spawner: &mut P,
    rest: &mut R,
) -> Result<(), Cut>
    ensures made { (gave : Gave) × (done : Done) × Makes rqd.old result rqd.new gave done
        × GaveSo (S.left source.old) (S.left source.new) reader.old gave reader.new
        × Adds (W.written sink.old) (W.written sink.new) done.sent
        × Grows (P.calls spawner.old) (P.calls spawner.new) (done.polls ++ done.acts)
        × HaveCauses (done.polls ++ done.acts) (P.faults spawner.old) (P.faults spawner.new) }
    ensures read { IsErrOf result Cut.Read → HasRisen (S.faults source.old) (S.faults source.new) }
    ensures write { IsErrOf result Cut.Write → HasRisen (W.faults sink.old) (W.faults sink.new) }
    ensures read_rises { S.faults source.old ≤ S.faults source.new }
    ensures write_rises { W.faults sink.old ≤ W.faults sink.new }
{
    poll_all(alloc, rqd, spawner)?;
    send_line(alloc, rqd, sink)?;
    let orders = await_reply(alloc, rqd, reader, source)?;
    act(alloc, rqd, orders, spawner)?;
    rest.rest();
    Ok(())
}

// Sends the next line.
fn send_line<W: Sink>(alloc: Global, rqd: &mut Rqd, sink: &mut W) -> Result<(), Cut>
    ensures sent { IsSent rqd.old result rqd.new (W.written sink.old) (W.written sink.new) }
    ensures write { IsErrOf result Cut.Write → HasRisen (W.faults sink.old) (W.faults sink.new) }
    ensures rises { W.faults sink.old ≤ W.faults sink.new }
{
    let line = with_newline(rqd.next_line(alloc)?)?;
    match write_all(sink, line.as_str().as_bytes()) {
        Ok(()) => Ok(()),
        Err(_) => Err(Cut::Write),
    }
}

// The text with a newline at its end.
fn with_newline(text: Text) -> Result<Text, AllocError>
    ensures { IfOk result (λ ended. ended ≡ text ++ 10 ∷ []) }
{
    let mut string = text.into_string();
    string.push_str("\n")?;
    Ok(Text::from_string(string))
}

// Takes a reply line, and says what it orders, if anything.
fn await_reply<S: Source>(
    alloc: Global,
    rqd: &mut Rqd,
    reader: &mut LineReader,
    source: &mut S,
) -> Result<Option<Orders>, Cut>
    ensures ordered { (answer : Result Given LineFault) × Moves (S.left source.old) (S.left source.new) reader.old answer reader.new
        × Awaits rqd.old result rqd.new answer }
    ensures started { IfOk result (λ orders. IfSome orders (λ o. AreStarted o.starts rqd.new.running)) }
    ensures cause { IsErrOf result Cut.Read → HasRisen (S.faults source.old) (S.faults source.new) }
    ensures rises { S.faults source.old ≤ S.faults source.new }
{
    match reader.next(source) {
        Ok(Line::Bytes(line)) => take_line(alloc, rqd, line),
        Ok(Line::TooLong) => Ok(None),
        Ok(Line::End) => Err(Cut::End),
        Err(LineFault::Read) => Err(Cut::Read),
        Err(LineFault::Spent) => Err(Cut::Spent),
    }
}

// What a line orders, if anything.
fn take_line(alloc: Global, rqd: &mut Rqd, line: &[u8]) -> Result<Option<Orders>, Cut>
    ensures ordered { IsOrdered rqd.old (take_line rqd.old line.now) result rqd.new }
    ensures started { IfOk result (λ orders. IfSome orders (λ o. AreStarted o.starts rqd.new.running)) }
{
    match rqd.take_reply(alloc, line) {
        Ok(orders) => Ok(Some(orders)),
        Err(RqdFault::NotAReply) => Ok(None),
        Err(RqdFault::NotLatest { .. }) => Ok(None),
        Err(RqdFault::Refused { .. }) => Ok(None),
        Err(RqdFault::NoMemory) => Err(Cut::NoMemory),
    }
}

// Does what was ordered, if anything.
fn act<P: Spawner>(
    alloc: Global,
    rqd: &mut Rqd,
    orders: Option<Orders>,
    spawner: &mut P,
) -> Result<(), AllocError>
    requires { IfSome orders (λ o. AreStarted o.starts rqd.old.running) }
    ensures { (told : List SpawnCall)
        × Carries (tasks_ordered orders) result told rqd.old rqd.new (P.faults spawner.old) (P.faults spawner.new)
        × Grows (P.calls spawner.old) (P.calls spawner.new) told }
{
    match orders {
        Some(orders) => carry_out(alloc, rqd, &orders, spawner),
        None => Ok(()),
    }
}
