//! The daemon's whole work: a connection, and then the call.

ghost use Rattle.std.specs.Prelude.{Some};
ghost use Rattle.cue_io.specs.Growth.{Grows};
ghost use Rattle.dialer.specs.Dials.{given_back, target_at};
ghost use Rattle.rqd_session.specs.Programs.{IsRun, IsRunAt, Run, spawning};

use crate::run::run_rqd;
use command_line::Status;
use dialer::{DialFault, Dialer, target_of};
use farm_types::Text;
use rqd_launcher::{Rest, Spawner};
use std::alloc::Global;

/// Runs the daemon for the words after its name: an address, a port, and the words of `run_rqd`. It connects before it reads those, and gives the connection
/// back as the call left it.
pub fn run_program<D: Dialer, P: Spawner, R: Rest>(
    alloc: Global,
    words: &[Text],
    dialer: &mut D,
    spawner: &mut P,
    rest: &mut R,
) -> (Status, Option<(D::In, D::Out)>)
    // Where it connected to, what was taken, sent and done over that connection, and why the status is this one.
    ensures { (run : Run) × IsRun words.now result.0 (given_back D.In.left D.In.faults D.Out.written D.Out.faults result.1)
        (spawning (P.calls spawner.old) (P.faults spawner.old)) (spawning (P.calls spawner.new) (P.faults spawner.new)) run
        × Grows (D.dialled dialer.old) (D.dialled dialer.new) run.dialled }
{
    let Some((address, port, more)) = target_of(words) else {
        return (Status::WrongWords, None);
    };
    run_connected(alloc, address, port, more, dialer, spawner, rest)
}

// Connects, and runs the call over that.
fn run_connected<D: Dialer, P: Spawner, R: Rest>(
    alloc: Global,
    address: &str,
    port: u16,
    words: &[Text],
    dialer: &mut D,
    spawner: &mut P,
    rest: &mut R,
) -> (Status, Option<(D::In, D::Out)>)
    ensures { (run : Run) × IsRunAt (Some (target_at address.now words.now port)) result.0
        (given_back D.In.left D.In.faults D.Out.written D.Out.faults result.1)
        (spawning (P.calls spawner.old) (P.faults spawner.old)) (spawning (P.calls spawner.new) (P.faults spawner.new)) run
        × Grows (D.dialled dialer.old) (D.dialled dialer.new) run.dialled }
{
    match dialer.dial(address, port) {
        Ok((source, sink)) => {
            let mut source = source;
            let mut sink = sink;
            let status = run_rqd(alloc, words, &mut source, &mut sink, spawner, rest);
            (status, Some((source, sink)))
        }
        Err(DialFault::Failed) => (Status::NoConnection, None),
        Err(DialFault::NoMemory) => (Status::NoMemory, None),
    }
}
