//! What comes of a row.

use crate::asks::Ask;
use crate::attempts::some_attempts;
use crate::entries::entries_from;
use crate::lines::line_text;
use crate::readings::{counted_from, sent_text, slot_text, started_text, told_text};
use crate::replies::reply_text;
use crate::stage::Stage;
use case_text::LineFault;
use std::alloc::{AllocError, Global};
use world_law::{Event, WorldFault};

/// What comes of what a row asks, at a moment (seconds).
pub fn outcome(
    alloc: Global,
    stage: &mut Stage,
    ask: &Ask<'_>,
    moment: u64,
) -> Result<String, LineFault> {
    match event_of(stage, ask, moment)? {
        None => Ok(reading(alloc, stage, ask)?),
        Some(event) => Ok(happen(alloc, stage, &event)?),
    }
}

// The event that is asked for, if it is one.
fn event_of(stage: &Stage, ask: &Ask<'_>, moment: u64) -> Result<Option<Event>, LineFault> {
    let event = match ask {
        Ask::Send { host } => Event::Send {
            host: stage.host_named(host)?,
        },
        Ask::Deliver { line, refused, .. } => Event::ToCue {
            line: *line,
            moment,
            refused: *refused,
        },
        Ask::DeliverReply { reply } => Event::ToHost { line: *reply },
        Ask::End {
            host,
            attempt,
            exit,
        } => Event::Ended {
            host: stage.host_named(host)?,
            attempt: *attempt,
            exit: *exit,
        },
        Ask::NewLife { host, nonce } => Event::NewLife {
            host: stage.host_named(host)?,
            nonce: *nonce,
        },
        Ask::Restart { further, .. } => Event::Restart {
            further: *further,
            moment,
        },
        _ => return Ok(None),
    };
    Ok(Some(event))
}

// What is there.
fn reading(alloc: Global, stage: &Stage, ask: &Ask<'_>) -> Result<String, LineFault> {
    match ask {
        Ask::Started { host } => Ok(started_text(alloc, stage, stage.host_named(host)?)?),
        Ask::Counted => Ok(counted_from(alloc, stage, 0)?),
        Ask::Entries => Ok(entries_from(alloc, stage.world().entries().as_slice(), 0)?),
        Ask::Slot { slot } => Ok(slot_text(alloc, stage, *slot)?),
        Ask::Line { line } => Ok(sent_text(alloc, stage, *line)?),
        Ask::Reply { reply } => Ok(told_text(alloc, stage, *reply)?),
        _ => Err(LineFault::Malformed),
    }
}

// How much there was before an event.
#[derive(Clone, Copy, Debug, PartialEq, Eq)]
struct Before {
    sent: usize,
    entries: usize,
    counted: usize,
    told: usize,
    started: usize,
}

// The event happens, or has a fault.
fn happen(alloc: Global, stage: &mut Stage, event: &Event) -> Result<String, AllocError> {
    let before = count_before(stage, event);
    match stage.step(alloc, event) {
        Ok(()) => what_came(alloc, stage, event, &before),
        Err(WorldFault::NoSuch) => String::from_str(alloc, "no such"),
        Err(WorldFault::UsedNonce { nonce }) => format!(in alloc; "nonce {nonce} was used"),
        Err(WorldFault::NoMemory) => Err(AllocError),
    }
}

fn count_before(stage: &Stage, event: &Event) -> Before {
    let world = stage.world();
    Before {
        sent: world.sent().len(),
        entries: world.entries().len(),
        counted: world.counted().len(),
        told: world.told().len(),
        started: count_started(stage, event),
    }
}

// How much the host has started to which a line comes.
fn count_started(stage: &Stage, event: &Event) -> usize {
    match event {
        Event::ToHost { line } => match stage.started(host_of(stage, *line)) {
            None => 0,
            Some(attempts) => attempts.len(),
        },
        _ => 0,
    }
}

// The host that a line to hosts is for, or the number behind all hosts.
fn host_of(stage: &Stage, line: u32) -> u32 {
    match stage.world().told().as_slice().get(line as usize) {
        None => u32::MAX,
        Some(told) => told.host,
    }
}

// What came of an event.
fn what_came(
    alloc: Global,
    stage: &Stage,
    event: &Event,
    before: &Before,
) -> Result<String, AllocError> {
    match event {
        Event::Send { .. } => sent(alloc, stage, before.sent),
        Event::ToCue { .. } => answered(alloc, stage, before),
        Event::ToHost { line } => taken(alloc, stage, host_of(stage, *line), before.started),
        Event::Ended { .. } => String::from_str(alloc, "ended"),
        Event::NewLife { .. } => String::from_str(alloc, "begun"),
        Event::Restart { .. } => {
            let entries = entries_from(alloc, stage.world().entries().as_slice(), 0)?;
            format!(in alloc; "records {entries}")
        }
    }
}

// The line of that number, which was sent.
fn sent(alloc: Global, stage: &Stage, number: usize) -> Result<String, AllocError> {
    match stage.world().sent().as_slice().get(number) {
        None => String::from_str(alloc, "no line"),
        Some(line) => {
            let text = line_text(alloc, line.line.as_str())?;
            format!(in alloc; "line {number}: {text}")
        }
    }
}

// What a line to the scheduler made: the entries, the completions that it counts, and the reply, where there are any.
fn answered(alloc: Global, stage: &Stage, before: &Before) -> Result<String, AllocError> {
    let world = stage.world();
    let entries = entries_from(alloc, world.entries().as_slice(), before.entries)?;
    let mut text = format!(in alloc; "records {entries}")?;
    if world.counted().len() > before.counted {
        let counted = counted_from(alloc, stage, before.counted)?;
        text.push_str("; counts ")?;
        text.push_str(counted.as_str())?;
    }
    if let Some(told) = world.told().as_slice().get(before.told) {
        let reply = reply_text(alloc, told.line.as_slice())?;
        text.push_str(format!(in alloc; "; reply {}: {reply}", before.told)?.as_str())?;
    }
    Ok(text)
}

// What a line to a host started.
fn taken(alloc: Global, stage: &Stage, host: u32, before: usize) -> Result<String, AllocError> {
    match stage.started(host) {
        None => String::from_str(alloc, "no such"),
        Some(attempts) => {
            let mut starts = Vec::new(alloc);
            for attempt in attempts.iter().skip(before) {
                starts.push(*attempt)?;
            }
            let starts = some_attempts(alloc, starts.as_slice())?;
            format!(in alloc; "{} starts{starts}", stage.name_of(host))
        }
    }
}
