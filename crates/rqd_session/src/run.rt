//! The daemon's call over any source, sink and spawner.

ghost use Rattle.std.specs.Prelude.{◌≡◌, ◌↔◌, None};
ghost use Rattle.command_line.specs.declared.status.Status.TheVariants as exit;
ghost use Rattle.fault_counts.specs.Counts.{HasRisen};
ghost use Rattle.cue_io.specs.Reader.{new_reader};
ghost use Rattle.farm_lines.specs.declared.limits.TheConstants.{REPLY_LIMIT};
ghost use Rattle.rqd_session.specs.Runs.{AreRun, Call, IsCall, surroundings};
ghost use Rattle.rqd_session.specs.Steps.{status_of};
ghost use Rattle.rqd_session.specs.Words.{asked_of};

use crate::cut::Cut;
use crate::round::run_round;
use crate::words::read_words;
use command_line::Status;
use cue_io::{LineReader, Sink, Source};
use farm_lines::REPLY_LIMIT;
use farm_types::Text;
use rqd_core::Rqd;
use rqd_launcher::{Rest, Spawner};
use std::alloc::Global;

/// Runs the daemon for the words after its address and port, NAME ALLOC CORES MEMORY NONCE ROUNDS: one life, in so many rounds. Each polls the attempts that
/// run, sends one line to the sink, takes one reply line of the source, does what it orders, and rests. A reply line that is too long, is no reply, is
/// no first reply to the latest line or is a refusal orders nothing, and the rounds go on.
///
/// It is done where all rounds were made. Else it tells invalid words, a failed read, a failed write, no memory, that the bytes which one call takes are spent,
/// or that the input ended while a reply was awaited.
pub fn run_rqd<S: Source, W: Sink, P: Spawner, R: Rest>(
    alloc: Global,
    words: &[Text],
    source: &mut S,
    sink: &mut W,
    spawner: &mut P,
    rest: &mut R,
) -> Status
    // Wrong words are told exactly where the words are invalid.
    ensures usage { (result ≡ exit.WrongWords) ↔ (asked_of words.now ≡ None) }

    // What was taken, sent and done, and why the status is this one: the lines are those of one life over the reply lines taken and what the spawner answered.
    // Where no count of faults rose and the input sufficed, all rounds were made, or memory ran out.
    ensures call { (call : Call) × IsCall words.now result
        (surroundings (S.left source.old) (S.faults source.old) (W.written sink.old) (W.faults sink.old) (P.calls spawner.old) (P.faults spawner.old))
        (surroundings (S.left source.new) (S.faults source.new) (W.written sink.new) (W.faults sink.new) (P.calls spawner.new) (P.faults spawner.new)) call }
{
    let Some(asked) = read_words(words) else {
        return Status::WrongWords;
    };
    let Ok(config) = asked.config(alloc) else {
        return Status::NoMemory;
    };
    let Ok(mut rqd) = Rqd::make(alloc, config) else {
        return Status::NoMemory;
    };
    let Ok(mut reader) = LineReader::make(alloc, REPLY_LIMIT as usize) else {
        return Status::NoMemory;
    };
    run_rounds(
        alloc,
        &mut rqd,
        asked.rounds,
        &mut reader,
        source,
        sink,
        spawner,
        rest,
    )
}

// Makes the rounds of a life, until one is cut off.
fn run_rounds<S: Source, W: Sink, P: Spawner, R: Rest>(
    alloc: Global,
    rqd: &mut Rqd,
    rounds: u32,
    reader: &mut LineReader,
    source: &mut S,
    sink: &mut W,
    spawner: &mut P,
    rest: &mut R,
) -> Status
    requires { reader.old ≡ new_reader REPLY_LIMIT }
    ensures call { (call : Call) × AreRun rqd.old rounds result
        (surroundings (S.left source.old) (S.faults source.old) (W.written sink.old) (W.faults sink.old) (P.calls spawner.old) (P.faults spawner.old))
        (surroundings (S.left source.new) (S.faults source.new) (W.written sink.new) (W.faults sink.new) (P.calls spawner.new) (P.faults spawner.new)) call }
    ensures read { result ≡ exit.ReadFailed → HasRisen (S.faults source.old) (S.faults source.new) }
    ensures write { result ≡ exit.WriteFailed → HasRisen (W.faults sink.old) (W.faults sink.new) }
{
    for _round in 0..rounds {
        match run_round(alloc, rqd, reader, source, sink, spawner, rest) {
            Ok(()) => {}
            Err(cut) => return status_of(cut),
        }
    }
    Status::Done
}

// The status of a call whose last round was cut off.
fn status_of(cut: Cut) -> Status
    ensures { result ≡ status_of cut }
{
    match cut {
        Cut::Read => Status::ReadFailed,
        Cut::Write => Status::WriteFailed,
        Cut::NoMemory => Status::NoMemory,
        Cut::Spent => Status::Spent,
        Cut::End => Status::InputEnded,
    }
}
