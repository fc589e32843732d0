//! The program's call over the machine's own streams and clock.

ghost use Rattle.std.specs.Prelude.{◌≡◌, Some};
ghost use Rattle.serving.specs.session.specs.Opening.{MayOpen};
ghost use Rattle.serving.specs.session.specs.Words.{WordForm, form_of};

use command_line::Status;
use cue_io::{InputSource, OutputSink, SystemClock};
use farm_keeper::Keeper;
use farm_types::Text;
use serving::session::run_program;
use std::io::{self, IsTerminal};

/// Runs the program over the standard streams, the machine's clock and a keeper, which is given back.
pub fn answer<K: Keeper>(rt: &HostRuntime, words: &[Text], keeper: K) -> (Status, K)
    requires { (form : WordForm) → form_of words.now ≡ Some form → K.tells keeper → MayOpen form (K.holds keeper) (K.left keeper) }
{
    let Ok(clock_rt) = rt.clone() else {
        return (Status::NoMemory, keeper);
    };
    let mut source = InputSource::make(rt.reader());
    let mut sink = OutputSink::make(io::writer(rt));
    let mut errors = OutputSink::make(rt.stderr());
    let mut clock = SystemClock::make(clock_rt);
    let (status, keeper, _seat) = run_program(
        rt.alloc(),
        words,
        rt.stdin().is_terminal(),
        &mut source,
        &mut sink,
        &mut errors,
        keeper,
        &mut clock,
    );
    (status, keeper)
}
