//! The program's whole work: a hint for who calls it, and then the call.

ghost use Rattle.std.specs.Prelude.{◌≡◌, ◌↔◌, None, Some};
ghost use Rattle.fault_counts.specs.Counts.{HasRisen};
ghost use Rattle.session.specs.Opening.{BeginsBad, BeginsWith, HoldsFarm, IsUnmigrated, IsUntouched, MayOpen};
ghost use Rattle.session.specs.Hints.{HasTold, hint_of};
ghost use Rattle.line_exchanges.specs.Calls.{streams};
ghost use Rattle.session.specs.Sessions.{Call, GoesOnOpened, IsCall};
ghost use Rattle.session.specs.Words.{WordForm, form_of};

use crate::run::run_cuebot;
use crate::word_forms::form;
use crate::words::Form;
use booking_table::Seat;
use command_line::Status;
use cue_io::{Clock, Sink, Source, write_all};
use farm_keeper::Keeper;
use farm_types::Text;
use std::alloc::Global;

const USAGE: &str =
    "usage: cuebot demo | script STORE | load N | serve STORE PORT WORKERS CONNECTIONS\n";

const WAITING: &str = "cuebot: waiting for lines, each a JSON object; end the input with Ctrl-D\n";

/// Runs `cuebot` for the words after its name, as `run_cuebot` does, and before that writes a hint on `errors`: the usage for invalid words,
/// and at a terminal what is waited for, which is nothing for a load. What can't be written of the hint is passed over.
pub fn run_program<S: Source, W: Sink, E: Sink, K: Keeper, C: Clock>(
    alloc: Global,
    words: &[Text],
    at_terminal: bool,
    source: &mut S,
    sink: &mut W,
    errors: &mut E,
    keeper: K,
    clock: &mut C,
) -> (Status, K, Option<Seat>)
    requires { (form : WordForm) → form_of words.now ≡ Some form → K.tells keeper → MayOpen form (K.holds keeper) (K.left keeper) }

    // WrongWords comes exactly where the words are invalid, and then nothing is read, written or loaded.
    ensures usage { (result.0 ≡ Status.WrongWords) ↔ (form_of words.now ≡ None) }
    ensures nothing { form_of words.now ≡ None → (source.new ≡ source.old) × (sink.new ≡ sink.old) × (clock.new ≡ clock.old) × (result.1 ≡ keeper) }

    // What was taken, written and read of the clock, and the exchanges, as `run_cuebot` says.
    ensures call { (call : Call) × IsCall words.now result.0
        (streams (S.left source.old) (S.faults source.old) (W.written sink.old) (W.faults sink.old) (C.readings clock.old) (K.faults keeper))
        (streams (S.left source.new) (S.faults source.new) (W.written sink.new) (W.faults sink.new) (C.readings clock.new) (K.faults result.1)) call result.2
        (λ form. BeginsWith form (K.tells result.1) (K.holds keeper)) (λ form. BeginsBad form (K.tells result.1) (K.holds keeper))
        (result.1 ≡ keeper) (K.tells result.1 → IsUntouched (K.holds keeper) (K.left keeper) (K.holds result.1) (K.left result.1))
        (λ f. K.tells result.1 → IsUnmigrated (K.holds keeper) (K.holds result.1) (K.left result.1) f)
        (GoesOnOpened K.commits K.tells K.holds K.left K.faults keeper result.1) (HoldsFarm (K.tells result.1) (K.holds result.1) (K.left result.1)) }

    // A fault of the store, a failed read or a failed write is told only where the keeper's, the source's or the sink's count of faults rose in this call.
    ensures store { result.0 ≡ Status.StoreFailed → HasRisen (K.faults keeper) (K.faults result.1) }
    ensures read { result.0 ≡ Status.ReadFailed → HasRisen (S.faults source.old) (S.faults source.new) }
    ensures write { result.0 ≡ Status.WriteFailed → HasRisen (W.faults sink.old) (W.faults sink.new) }

    // The hint was written, and nothing else was written there.
    ensures hint { HasTold (hint_of (form_of words.now) at_terminal) (E.written errors.old) (E.written errors.new)
        (HasRisen (E.faults errors.old) (E.faults errors.new)) }
{
    write_hint(errors, hint_for(words, at_terminal));
    run_cuebot(alloc, words, source, sink, keeper, clock)
}

// The hint: the usage for invalid words, and at a terminal what is waited for. It is empty where there is none.
fn hint_for(words: &[Text], at_terminal: bool) -> &'static str
    ensures { result.now ≡ hint_of (form_of words.now) at_terminal }
{
    match form(words) {
        None => USAGE,
        Some(Form::Load { .. }) => "",
        Some(_) if at_terminal => WAITING,
        Some(_) => "",
    }
}

// Writes the hint, and passes over what can't be written of it.
fn write_hint<E: Sink>(errors: &mut E, hint: &str)
    ensures { HasTold hint.now (E.written errors.old) (E.written errors.new) (HasRisen (E.faults errors.old) (E.faults errors.new)) }
{
    match write_all(errors, hint.as_bytes()) {
        Ok(()) => {}
        Err(_) => {}
    }
}
