//! The steps of a case on one table.

ghost use Rattle.std.specs.Prelude.{◌≡◌};

use crate::commits::{commit_line, confirm_claim};
use crate::dispatcher::Dispatcher;
use crate::passing::{catch_up, meet, pass_on, seen_by};
use crate::plan::plan_for;
use crate::reader::Reader;
use crate::said::Said;
use crate::splitting::split_off;
use crate::step::{Call, Name, PassCall, PassName, Step};
use booking_recorder::{Naming, Pass, Recorder};
use booking_table::Table;
use farm_core::Farm;
use farm_keeper::MemoryKeeper;
use farm_types::{HostNo, LimitNo, MOST_HOSTS, SubNo};
use std::alloc::{AllocError, Global};
use std::mem;

/// The recorder of a table, a seat that looks at its words, and the dispatchers and the passes that were split off.
#[derive(Drop)]
pub struct Play<N: Naming> {
    pub recorder: Recorder<MemoryKeeper, N>,
    pub reader: Reader<N>,
    pub a: Option<Dispatcher<N>>,
    pub b: Option<Dispatcher<N>>,
    pub p: Option<Pass<N>>,
    pub q: Option<Pass<N>>,
}

/// Takes a step at a moment (seconds), and says what it answers.
pub(crate) fn take_step<N: Naming>(
    alloc: Global,
    table: &Table,
    play: &mut Play<N>,
    step: &Step<'_>,
    moment: u64,
) -> Result<String, AllocError>
    requires table { table.now ≡ N.table }
{
    match step {
        Step::Line { line } => commit_line(alloc, table, &mut play.recorder, line, moment),
        Step::Seat { name, host } => split_for(alloc, table, play, *name, host),
        Step::Call { name, call } => call_of(alloc, table, play, *name, *call, moment),
        Step::Pass { name } => text_of(alloc, make_pass(table, play, *name)),
        Step::PassCall { name, call } => text_of(alloc, call_pass(table, play, *name, *call)),
        Step::HostWord { .. }
        | Step::SubWord { .. }
        | Step::LimitWord { .. }
        | Step::SlotWord { .. } => text_of(alloc, look_at(table, play, step)),
    }
}

// An answer as text.
fn text_of(alloc: Global, said: Said) -> Result<String, AllocError> {
    format!(in alloc; "{said}")
}

// ---- looks

// Looks at a word.
fn look_at<N: Naming>(table: &Table, play: &mut Play<N>, step: &Step<'_>) -> Said
    requires table { table.now ≡ N.table }
{
    match step {
        Step::HostWord { host } => match host_named(play.recorder.read(), host) {
            Some(host) => play.reader.host(table, host),
            None => Said::Unknown,
        },
        Step::SubWord { show, allocation } => {
            match sub_named(play.recorder.read(), show, allocation) {
                Some(sub) => play.reader.sub(table, sub),
                None => Said::Unknown,
            }
        }
        Step::LimitWord { limit } => match limit_named(play.recorder.read(), limit) {
            Some(limit) => play.reader.limit(table, limit),
            None => Said::Unknown,
        },
        Step::SlotWord { slot } => play.reader.slot(table, *slot),
        _ => Said::NotNow,
    }
}

fn host_named(farm: &Farm, name: &str) -> Option<HostNo> {
    farm.books().host_named(name)
}

fn sub_named(farm: &Farm, show: &str, allocation: &str) -> Option<SubNo> {
    let show = farm.books().show_named(show)?;
    let allocation = farm.books().alloc_named(allocation)?;
    let row = farm.books().sub_of(show, allocation)?;
    Some(row.sub)
}

fn limit_named(farm: &Farm, name: &str) -> Option<LimitNo> {
    farm.books().limit_named(name)
}

// ---- seats

// Splits a seat off for a host.
fn split_for<N: Naming>(
    alloc: Global,
    table: &Table,
    play: &mut Play<N>,
    name: Name,
    host: &str,
) -> Result<String, AllocError>
    requires table { table.now ≡ N.table }
{
    let Some(host) = host_named(play.recorder.read(), host) else {
        return text_of(alloc, Said::Unknown);
    };
    if u32::from(host.0) >= MOST_HOSTS {
        return text_of(alloc, Said::Unknown);
    }
    let plan = plan_for(alloc, play.recorder.read(), host)?;
    let count = plan.candidates.len();
    let Ok(seat) = split_off(table, &mut play.recorder) else {
        return text_of(alloc, Said::SeatsFull);
    };
    let dispatcher = Dispatcher::make(seat, plan);
    match name {
        Name::A => drop(mem::replace(&mut play.a, Some(dispatcher))),
        Name::B => drop(mem::replace(&mut play.b, Some(dispatcher))),
    }
    text_of(alloc, Said::Suits { count })
}

// Makes a call of a seat.
fn call_of<N: Naming>(
    alloc: Global,
    table: &Table,
    play: &mut Play<N>,
    name: Name,
    call: Call,
    moment: u64,
) -> Result<String, AllocError>
    requires table { table.now ≡ N.table }
{
    let Play {
        recorder,
        reader: _,
        a,
        b,
        p: _,
        q: _,
    } = play;
    match name {
        Name::A => call_at(alloc, table, recorder, a, call, moment),
        Name::B => call_at(alloc, table, recorder, b, call, moment),
    }
}

// Makes a call of the dispatcher, if it is there.
fn call_at<N: Naming>(
    alloc: Global,
    table: &Table,
    recorder: &mut Recorder<MemoryKeeper, N>,
    dispatcher: &mut Option<Dispatcher<N>>,
    call: Call,
    moment: u64,
) -> Result<String, AllocError>
    requires table { table.now ≡ N.table }
{
    match dispatcher {
        None => text_of(alloc, Said::NotNow),
        Some(dispatcher) => match call {
            Call::Confirm => confirm_claim(alloc, table, recorder, dispatcher, moment),
            call => text_of(alloc, dispatcher.call(table, call)),
        },
    }
}

// ---- passes

// Splits a pass off, in the place of the one that had its name.
fn make_pass<N: Naming>(table: &Table, play: &mut Play<N>, name: PassName) -> Said
    requires table { table.now ≡ N.table }
{
    match name {
        PassName::P => pass_on(table, &mut play.recorder, &mut play.p),
        PassName::Q => pass_on(table, &mut play.recorder, &mut play.q),
    }
}

// Makes a call of a pass.
fn call_pass<N: Naming>(table: &Table, play: &mut Play<N>, name: PassName, call: PassCall) -> Said
    requires table { table.now ≡ N.table }
{
    let Play {
        recorder,
        reader: _,
        a: _,
        b: _,
        p,
        q,
    } = play;
    match (name, call) {
        (PassName::P, PassCall::CatchUp) => catch_up(table, recorder, p),
        (PassName::Q, PassCall::CatchUp) => catch_up(table, recorder, q),
        (PassName::P, PassCall::Meet) => meet(table, p, q),
        (PassName::Q, PassCall::Meet) => meet(table, q, p),
        (PassName::P, PassCall::Seen) => seen_by(p),
        (PassName::Q, PassCall::Seen) => seen_by(q),
    }
}
