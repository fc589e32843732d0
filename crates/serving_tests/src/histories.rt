//! Two sessions beside each other see one history.

ghost use Rattle.std.specs.Prelude.{◌≡◌};
ghost use Rattle.booking_rule.specs.Kept.{first_view};
ghost use Rattle.booking_rule.specs.Link.{opening_of};
ghost use Rattle.booking_table.specs.Seats.{view, IsSeatOf};
ghost use Rattle.recorder_start.specs.Keeping.{IsKeptBy};

use crate::passes::new_bot;
use booking_table::{Seat, Table};
use cue_io::{MemoryClock, MemorySink, MemorySource};
use farm_keeper::MemoryKeeper;
use recorder_start::{OpenFault, load_farm};
use serving::shared_sessions::booking_recorder::Pass;
use serving::shared_sessions::booking_recorder::farm_core::Farm;
use serving::shared_sessions::shared_bot::{Bot, Opened};
use serving::shared_sessions::shared_rounds::OpenGate;
use serving::shared_sessions::{SessionEnd, serve_one};
use std::alloc::{AllocError, Global};
use std::marker::{Brand, Model};
use std::sync::Wait;
use std::test::Fail;
use std::thread::{self, Threads};

// What is there at first, in two entries.
const STUDIO: &str = r#"{"op":"show","name":"alpha"}
{"op":"alloc","name":"farm.general"}
"#;

const MADE: &str = r#"{"ok":true}
{"ok":true}
"#;

// A job, and a look at its one frame: an entry and a list.
const JOB_A: &str =
    r#"{"op":"submit","job":{"name":"a","show":"alpha","facility":"farm","layers":[{"name":"l","range":"1","command":"x"}]}}
{"op":"list","what":"frames","job":"a"}
"#;

const HAS_A: &str = r#"{"frames":1,"job":"a","ok":true}
{"ok":true,"rows":[{"frame":"0001-l","retries":0,"state":"WAITING","version":0}],"total":1}
"#;

const JOB_B: &str =
    r#"{"op":"submit","job":{"name":"b","show":"alpha","facility":"farm","layers":[{"name":"l","range":"1","command":"x"}]}}
{"op":"list","what":"frames","job":"b"}
"#;

const HAS_B: &str = r#"{"frames":1,"job":"b","ok":true}
{"ok":true,"rows":[{"frame":"0001-l","retries":0,"state":"WAITING","version":0}],"total":1}
"#;

// A look at the frame of one job, which catches up.
const LOOK_AT_A: &str = r#"{"op":"list","what":"frames","job":"a"}
"#;

const LOOK_AT_B: &str = r#"{"op":"list","what":"frames","job":"b"}
"#;

const FRAME: &str =
    r#"{"ok":true,"rows":[{"frame":"0001-l","retries":0,"state":"WAITING","version":0}],"total":1}
"#;

/// A session, with what it has seen of the history. Between two calls it holds nothing.
#[derive(Drop)]
struct Session<N: Opened> {
    pass: Pass<N>,
}

impl<N: Opened> Model for Session<N> {
    ghost use Rattle.serving.specs.shared_sessions.specs.booking_recorder.specs.Passing.{Passing};
    ghost use Rattle.serving.specs.shared_sessions.specs.shared_bot.specs.Passes.{IsFree};

    ghost Value = { Passing };

    ghost view = { λ s. s.pass };

    ghost invariant = { λ s. IsFree N.opening s.pass.view };
}

impl<N: Opened> Session<N> {
    // A session that has seen all that there is. There is none where all passes were had.
    fn begin<R: Wait>(rt: &R, bot: &Bot<MemoryKeeper, N>) -> Option<Session<N>> {
        match bot.pass(rt) {
            Ok(pass) => Some(Session { pass }),
            Err(_) => None,
        }
    }

    // How many entries it has seen.
    fn seen(&self) -> u64 {
        self.pass.seen()
    }

    // Answers lines. Whether the replies are these.
    fn answers<R: Wait>(
        &mut self,
        rt: &R,
        alloc: Global,
        bot: &Bot<MemoryKeeper, N>,
        lines: &str,
        replies: &str,
    ) -> Result<bool, AllocError> {
        let mut source = MemorySource::make(alloc, lines.as_bytes(), 64, &[])?;
        let mut sink = MemorySink::make(alloc, 4096, 4096, &[])?;
        let mut clock = MemoryClock::make(alloc, &[0])?;
        let ended = serve_one(
            rt,
            alloc,
            bot,
            &mut self.pass,
            &mut OpenGate,
            &mut clock,
            &mut source,
            &mut sink,
        );
        Ok(ended == SessionEnd::End && sink.written() == replies.as_bytes())
    }
}

// Answers lines in a session that is handed back, and says whether the replies are these.
fn answered<N: Opened, R: Wait>(
    rt: &R,
    alloc: Global,
    bot: &Bot<MemoryKeeper, N>,
    session: Session<N>,
    lines: &str,
    replies: &str,
) -> (Session<N>, Result<bool, AllocError>) {
    let mut session = session;
    let went = session.answers(rt, alloc, bot, lines, replies);
    (session, went)
}

/// How many entries two sessions have seen: the fewest and the most of them after both have submitted a job, and each of them once it has caught up. And
/// whether all replies were as they are to be.
#[derive(Clone, Copy, Debug, PartialEq, Eq)]
struct Seen {
    fewest: u64,
    most: u64,
    first: u64,
    second: u64,
    went: bool,
}

// Two sessions submit a job each, in threads of their own.
fn submit_both<N: Opened + Send + Sync, R: Threads + Wait + Sync>(
    rt: &R,
    alloc: Global,
    table: Table,
    seat: Seat,
    farm: Farm,
    keeper: MemoryKeeper,
) -> Result<Option<Seen>, AllocError>
    requires table { table ≡ N.table }
    requires seat { IsSeatOf table seat }
    requires first { view seat ≡ first_view }
    requires kept { IsKeptBy farm keeper }
    requires opening { opening_of farm ≡ N.opening }
{
    let bot: Bot<MemoryKeeper, N> = new_bot(alloc, table, seat, farm, keeper);
    let Some(first) = Session::begin(rt, &bot) else {
        return Ok(None);
    };
    let Some(second) = Session::begin(rt, &bot) else {
        return Ok(None);
    };
    let (first, made) = answered(rt, alloc, &bot, first, STUDIO, MADE);
    let (one, other) = thread::join(
        rt,
        || answered(rt, alloc, &bot, first, JOB_A, HAS_A),
        || answered(rt, alloc, &bot, second, JOB_B, HAS_B),
    );
    let both = made? && one.1? && other.1?;
    let seen = (one.0.seen(), other.0.seen());
    let (first, caught_up) = answered(rt, alloc, &bot, one.0, LOOK_AT_B, FRAME);
    let (second, also) = answered(rt, alloc, &bot, other.0, LOOK_AT_A, FRAME);
    Ok(Some(Seen {
        fewest: seen.0.min(seen.1),
        most: seen.0.max(seen.1),
        first: first.seen(),
        second: second.seen(),
        went: both && caught_up? && also?,
    }))
}

// The same over the empty farm.
fn seen_by_both<R: Threads + Wait + Sync>(
    rt: &R,
    alloc: Global,
) -> Result<Option<Seen>, OpenFault> {
    let mut keeper = MemoryKeeper::make(alloc, &[])?;
    let farm = load_farm(alloc, &mut keeper)?;
    let (table, seat) = Table::make(alloc)?;
    Ok(submit_both::<Brand, R>(rt, alloc, table, seat, farm, keeper)?)
}

// Each has seen its own entry, which is the third or the fourth one of all, and no more than four. Then each looks at the job of the other one.
#[test]
fn two_sessions_see_one_history(rt: HostRuntime) -> Result<(), Fail> {
    let seen = seen_by_both(&rt, rt.alloc())?;
    assert!(rt; seen.is_some());
    let Some(seen) = seen else {
        return Ok(());
    };
    assert!(rt; seen.went);
    assert!(rt; 3 <= seen.fewest && seen.most <= 4);
    assert_eq!(rt; (seen.first, seen.second), (4, 4));
    Ok(())
}
