//! The program's whole work: the file of a job spec, a connection, and then the call.

ghost use Rattle.std.specs.Prelude.{◌≡◌, List, [], ◌∷◌, Option, None, Some, option_map};
ghost use Rattle.cue_io.specs.Growth.{Grows};
ghost use Rattle.cue_io.specs.Output.{Adds};
ghost use Rattle.cue_words.specs.Commands.{words_of};
ghost use Rattle.cue_tool.specs.Calls.{Call};
ghost use Rattle.dialer.specs.Dials.{Dial, connected, given_back, target_at};
ghost use Rattle.cue_tool.specs.Programs.{HasCalled, HasDialled, IsRun, IsRunAt, IsWanted, Opened, Reads, Run, file_of, outcome, output};

use crate::run::{print_help, run_cue};
use command_line::Status;
use cue_io::{Sink, Source};
use cue_words::{ToolWords, WordsFault, read_words};
use dialer::{DialFault, Dialer, target_of};
use farm_types::Text;
use std::alloc::Global;

/// Why a file gave no text.
#[derive(Clone, Copy, Debug, PartialEq, Eq)]
pub enum SpecFault {
    /// It isn't there, can't be read, or is no text in UTF-8.
    Unreadable,
    /// Memory ran out.
    NoMemory,
}

/// What reads files of job specs. Where it can, it tells the files that it was asked for, and their texts.
pub trait SpecFiles {
    ghost opened: { Self → Option (List Opened) };

    fn read(&mut self, alloc: Global, file: &str) -> Result<Text, SpecFault>
        ensures { Grows (opened self.old) (opened self.new) (record { file = file.now; text = result } ∷ []) };
}

/// Runs the tool for the words after its name: an address, a port, and the words of `run_cue`. It connects only where those ask for a request, and gives the
/// connection back as the call left it.
pub fn run_program<D: Dialer, F: SpecFiles, O: Sink>(
    alloc: Global,
    words: &[Text],
    dialer: &mut D,
    files: &mut F,
    out: &mut O,
) -> (Status, Option<(D::In, D::Out)>)
    // What was read, where it connected to, what was taken, sent and printed, and why the status is this one.
    ensures { (run : Run) × IsRun words.now
        (outcome result.0 (given_back D.In.left D.In.faults D.Out.written D.Out.faults result.1) (output (O.written out.old) (O.faults out.old))
        (output (O.written out.new) (O.faults out.new))) run
        × Grows (D.dialled dialer.old) (D.dialled dialer.new) run.dialled
        × Grows (F.opened files.old) (F.opened files.new) run.opened
        × Adds (O.written out.old) (O.written out.new) run.call.printed }
{
    let Some((address, port, command)) = target_of(words) else {
        return (Status::WrongWords, None);
    };
    run_command(alloc, address, port, command, dialer, files, out)
}

// Runs the tool for its command: reads the file of a job spec where there is one.
fn run_command<D: Dialer, F: SpecFiles, O: Sink>(
    alloc: Global,
    address: &str,
    port: u16,
    words: &[Text],
    dialer: &mut D,
    files: &mut F,
    out: &mut O,
) -> (Status, Option<(D::In, D::Out)>)
    ensures { (run : Run) × IsRunAt (Some (target_at address.now words.now port))
        (outcome result.0 (given_back D.In.left D.In.faults D.Out.written D.Out.faults result.1) (output (O.written out.old) (O.faults out.old))
        (output (O.written out.new) (O.faults out.new))) run
        × Grows (D.dialled dialer.old) (D.dialled dialer.new) run.dialled
        × Grows (F.opened files.old) (F.opened files.new) run.opened
        × Adds (O.written out.old) (O.written out.new) run.call.printed }
{
    let Some(file) = file_of(words) else {
        return run_words(alloc, address, port, words, None, dialer, out);
    };
    match files.read(alloc, file) {
        Ok(spec) => run_words(
            alloc,
            address,
            port,
            words,
            Some(spec.as_str()),
            dialer,
            out,
        ),
        Err(SpecFault::Unreadable) => (Status::UnreadableSpec, None),
        Err(SpecFault::NoMemory) => (Status::NoMemory, None),
    }
}

// Runs the tool for its command and the text of that file.
fn run_words<D: Dialer, O: Sink>(
    alloc: Global,
    address: &str,
    port: u16,
    words: &[Text],
    spec: Option<&str>,
    dialer: &mut D,
    out: &mut O,
) -> (Status, Option<(D::In, D::Out)>)
    ensures { (dialled : List Dial) × (call : Call)
        × Reads (target_at address.now words.now port) (option_map (λ text. text.now) spec.entry)
        (outcome result.0 (given_back D.In.left D.In.faults D.Out.written D.Out.faults result.1) (output (O.written out.old) (O.faults out.old))
        (output (O.written out.new) (O.faults out.new))) dialled call
        × Grows (D.dialled dialer.old) (D.dialled dialer.new) dialled
        × Adds (O.written out.old) (O.written out.new) call.printed }
{
    match wanted_by(alloc, words, spec) {
        Ok(Wanted::Reply) => run_connected(alloc, address, port, words, spec, dialer, out),
        Ok(Wanted::HelpText) => (print_help(out), None),
        Err(WordsFault::Usage { .. }) => (Status::WrongWords, None),
        Err(WordsFault::BadSpec) => (Status::WrongWords, None),
        Err(WordsFault::NoMemory) => (Status::NoMemory, None),
    }
}

// What words ask for: a request's reply, or the help text.
#[derive(Clone, Copy)]
enum Wanted {
    Reply,
    HelpText,
}

// What the words want.
fn wanted_by(alloc: Global, words: &[Text], spec: Option<&str>) -> Result<Wanted, WordsFault>
    ensures { IsWanted result (words_of words.now (option_map (λ text. text.now) spec.entry)) }
{
    match read_words(alloc, words, spec) {
        Ok(ToolWords::Ask { .. }) => Ok(Wanted::Reply),
        Ok(ToolWords::Help) => Ok(Wanted::HelpText),
        Err(fault) => Err(fault),
    }
}

// Connects, and runs the call over that.
fn run_connected<D: Dialer, O: Sink>(
    alloc: Global,
    address: &str,
    port: u16,
    words: &[Text],
    spec: Option<&str>,
    dialer: &mut D,
    out: &mut O,
) -> (Status, Option<(D::In, D::Out)>)
    ensures { (dialled : List Dial) × (call : Call)
        × HasDialled (target_at address.now words.now port) (option_map (λ text. text.now) spec.entry)
        (outcome result.0 (given_back D.In.left D.In.faults D.Out.written D.Out.faults result.1) (output (O.written out.old) (O.faults out.old))
        (output (O.written out.new) (O.faults out.new))) dialled call
        × Grows (D.dialled dialer.old) (D.dialled dialer.new) dialled
        × Adds (O.written out.old) (O.written out.new) call.printed }
{
    match dialer.dial(address, port) {
        Ok(ends) => {
            let (status, ends) = run_over(alloc, words, spec, ends, out);
            (status, Some(ends))
        }
        Err(DialFault::Failed) => (Status::NoConnection, None),
        Err(DialFault::NoMemory) => (Status::NoMemory, None),
    }
}

// Runs the call over the source and the sink of a connection, and gives them back.
fn run_over<S: Source + Drop, W: Sink + Drop, O: Sink>(
    alloc: Global,
    words: &[Text],
    spec: Option<&str>,
    ends: (S, W),
    out: &mut O,
) -> (Status, (S, W))
    ensures { (call : Call) × HasCalled (connected S.left S.faults W.written W.faults ends) (connected S.left S.faults W.written W.faults result.1) words.now
        (option_map (λ text. text.now) spec.entry)
        (outcome result.0 (Some (connected S.left S.faults W.written W.faults result.1)) (output (O.written out.old) (O.faults out.old))
        (output (O.written out.new) (O.faults out.new))) call
        × Adds (O.written out.old) (O.written out.new) call.printed }
{
    let (mut source, mut sink) = ends;
    let status = run_cue(alloc, words, spec, &mut source, &mut sink, out);
    (status, (source, sink))
}

// The file of the job spec that the words name.
fn file_of(words: &[Text]) -> Option<&str>
    ensures { option_map (λ file. file.now) result ≡ file_of words.now }
{
    match words {
        [command, file] if command.is("submit") => Some(file.as_str()),
        _ => None,
    }
}
