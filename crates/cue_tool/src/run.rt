//! The tool's call over any source and sinks.

ghost use Rattle.std.specs.Prelude.{◌≡◌, ◌≢◌, ◌++◌, ◌∷◌, [], ℕ, IfOk, List, Ok, option_map};
ghost use Rattle.command_line.specs.declared.status.Status.{Status};
ghost use Rattle.fault_counts.specs.Counts.{HasRisen};
ghost use Rattle.cue_io.specs.Input.{Takes};
ghost use Rattle.cue_io.specs.Output.{Adds};
ghost use Rattle.cue_io.specs.Reader.{new_reader};
ghost use Rattle.farm_lines.specs.ReplyLines.{reply_of};
ghost use Rattle.farm_lines.specs.declared.limits.TheConstants.{REPLY_LIMIT};
ghost use Rattle.cue_words.specs.declared.asked.ToolWords.TheVariants.{Ask};
ghost use Rattle.cue_tool.specs.Answers.{read_shown};
ghost use Rattle.cue_tool.specs.Calls.{Answers, Call, Comes, DoesAsked, IsCall, OrRanOut, Prints, WriteFailed, help_shown, streams};

use crate::shown::read_shown;
use command_line::Status;
use cue_io::{Line, LineFault, LineReader, Sink, Source, write_all};
use cue_words::{ToolWords, WordsFault, help_text, read_words};
use farm_lines::REPLY_LIMIT;
use farm_types::Text;
use std::alloc::{AllocError, Global};

/// Runs the tool for the words after its address and port: sends the request of the words to the sink, takes one line of the source, and prints it, a
/// list as a table. For `help` it prints the help text, and takes and sends nothing. `spec` is the text of the file that `submit` names.
pub fn run_cue<S: Source, W: Sink, O: Sink>(
    alloc: Global,
    words: &[Text],
    spec: Option<&str>,
    source: &mut S,
    sink: &mut W,
    out: &mut O,
) -> Status
    // What was taken, sent and printed, and why the status is this one; that it is that of the reply, where nothing failed. What comes after the first line in
    // the source is let go.
    ensures call { (call : Call) × IsCall words.now (option_map (λ text. text.now) spec.entry) result
        (streams (S.left source.old) (S.faults source.old) (W.written sink.old) (W.faults sink.old) (O.written out.old) (O.faults out.old))
        (streams (S.left source.new) (S.faults source.new) (W.written sink.new) (W.faults sink.new) (O.written out.new) (O.faults out.new)) call }

    // A failed read or a failed write is told only where a count of faults rose in this call.
    ensures read { result ≡ Status.ReadFailed → HasRisen (S.faults source.old) (S.faults source.new) }
    ensures write { result ≡ Status.WriteFailed → WriteFailed
        (streams (S.left source.old) (S.faults source.old) (W.written sink.old) (W.faults sink.old) (O.written out.old) (O.faults out.old))
        (streams (S.left source.new) (S.faults source.new) (W.written sink.new) (W.faults sink.new) (O.written out.new) (O.faults out.new)) }
{
    match read_words(alloc, words, spec) {
        Ok(ToolWords::Ask { line }) => ask(alloc, words, line, source, sink, out),
        Ok(ToolWords::Help) => print_help(out),
        Err(WordsFault::Usage { .. }) => Status::WrongWords,
        Err(WordsFault::BadSpec) => Status::WrongWords,
        Err(WordsFault::NoMemory) => Status::NoMemory,
    }
}

// Sends a request, takes one line of the source, and prints it.
fn ask<S: Source, W: Sink, O: Sink>(
    alloc: Global,
    words: &[Text],
    request: Text,
    source: &mut S,
    sink: &mut W,
    out: &mut O,
) -> Status
    ensures call { (call : Call) × DoesAsked (Ok (Ask request)) words.now result
        (streams (S.left source.old) (S.faults source.old) (W.written sink.old) (W.faults sink.old) (O.written out.old) (O.faults out.old))
        (streams (S.left source.new) (S.faults source.new) (W.written sink.new) (W.faults sink.new) (O.written out.new) (O.faults out.new)) call }
    ensures read { result ≡ Status.ReadFailed → HasRisen (S.faults source.old) (S.faults source.new) }
    ensures write { result ≡ Status.WriteFailed → WriteFailed
        (streams (S.left source.old) (S.faults source.old) (W.written sink.old) (W.faults sink.old) (O.written out.old) (O.faults out.old))
        (streams (S.left source.new) (S.faults source.new) (W.written sink.new) (W.faults sink.new) (O.written out.new) (O.faults out.new)) }
{
    let Ok(mut reader) = LineReader::make(alloc, REPLY_LIMIT as usize) else {
        return Status::NoMemory;
    };
    let Ok(request) = with_newline(request) else {
        return Status::NoMemory;
    };
    match write_all(sink, request.as_str().as_bytes()) {
        Ok(()) => print_reply(alloc, words, &mut reader, source, out),
        Err(_) => Status::WriteFailed,
    }
}

// The text with a newline at its end.
fn with_newline(text: Text) -> Result<Text, AllocError>
    ensures { IfOk result (λ ended. ended ≡ text ++ 10 ∷ []) }
{
    let mut string = text.into_string();
    string.push_str("\n")?;
    Ok(Text::from_string(string))
}

// Takes a line of the source, and prints it.
fn print_reply<S: Source, O: Sink>(
    alloc: Global,
    words: &[Text],
    reader: &mut LineReader,
    source: &mut S,
    out: &mut O,
) -> Status
    requires { reader.old ≡ new_reader REPLY_LIMIT }
    ensures came { (taken printed : List ℕ) × Takes (S.left source.old) (S.left source.new) taken × Adds (O.written out.old) (O.written out.new) printed
        × OrRanOut (Comes words.now result taken printed (S.left source.new)) result printed }
    ensures read { result ≡ Status.ReadFailed → HasRisen (S.faults source.old) (S.faults source.new) }
    ensures write { result ≡ Status.WriteFailed → HasRisen (O.faults out.old) (O.faults out.new) }
{
    match reader.next(source) {
        Ok(Line::Bytes(line)) => print_line(alloc, words, line, out),
        Ok(Line::TooLong) => Status::NoReply,
        Ok(Line::End) => Status::InputEnded,
        Err(LineFault::Read) => Status::ReadFailed,
        Err(LineFault::Spent) => Status::Spent,
    }
}

// Prints what is shown of a line.
fn print_line<O: Sink>(alloc: Global, words: &[Text], line: &[u8], out: &mut O) -> Status
    ensures answers { (printed : List ℕ) × Adds (O.written out.old) (O.written out.new) printed
        × OrRanOut (Answers (read_shown words.now line.now (reply_of line.now)) result printed) result printed }
    ensures reads_nothing { result ≢ Status.ReadFailed }
    ensures write { result ≡ Status.WriteFailed → HasRisen (O.faults out.old) (O.faults out.new) }
{
    match read_shown(alloc, words, line) {
        Ok(Some(shown)) => print(out, shown.status, shown.text.as_slice()),
        Ok(None) => Status::NoReply,
        Err(_) => Status::NoMemory,
    }
}

// Prints the help text.
pub(crate) fn print_help<O: Sink>(out: &mut O) -> Status
    ensures answers { (printed : List ℕ) × Adds (O.written out.old) (O.written out.new) printed × Prints result printed help_shown }
    ensures write { result ≡ Status.WriteFailed → HasRisen (O.faults out.old) (O.faults out.new) }
{
    print(out, Status::Done, help_text().as_bytes())
}

// Prints a text, and answers the status, or that the write failed.
fn print<O: Sink>(out: &mut O, status: Status, text: &[u8]) -> Status
    ensures prints { (printed : List ℕ) × Adds (O.written out.old) (O.written out.new) printed
        × Prints result printed (record { status = status; text = text.now }) }
    ensures write { result ≢ status → HasRisen (O.faults out.old) (O.faults out.new) }
{
    match write_all(out, text) {
        Ok(()) => status,
        Err(_) => Status::WriteFailed,
    }
}
