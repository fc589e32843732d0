//! What is there, as rows read it.

use crate::attempts::{end_text, some_attempts};
use crate::stage::Stage;
use case_text::shown;
use farm_types::{Frame, Slot, SlotRow};
use state_names::state_word;
use std::alloc::{AllocError, Global};
use world_law::Counted;

/// What the present life of a host has started, as `0/1 1/1`.
pub fn started_text(alloc: Global, stage: &Stage, host: u32) -> Result<String, AllocError> {
    match stage.started(host) {
        None => String::from_str(alloc, "no such"),
        Some(attempts) => {
            let text = some_attempts(alloc, attempts)?;
            String::from_str(alloc, text.trim())
        }
    }
}

/// The completions that were counted, from that place on, with commas between them: `0/1=0/0 of h1 in line 6`; or that there are none.
pub fn counted_from(alloc: Global, stage: &Stage, place: usize) -> Result<String, AllocError> {
    let mut text = String::new(alloc);
    for count in stage.world().counted().as_slice().iter().skip(place) {
        if !text.is_empty() {
            text.push_str(", ")?;
        }
        text.push_str(count_text(alloc, stage, count)?.as_str())?;
    }
    if text.is_empty() {
        text.push_str("nothing")?;
    }
    Ok(text)
}

fn count_text(alloc: Global, stage: &Stage, count: &Counted) -> Result<String, AllocError> {
    let end = end_text(alloc, &count.attempt, count.exit)?;
    format!(in alloc;
        "{end} of {} in line {}",
        stage.name_of(count.host),
        count.line
    )
}

/// What stands in a slot of the farm, as `RUNNING version 1`.
pub fn slot_text(alloc: Global, stage: &Stage, slot: u32) -> Result<String, AllocError> {
    match stage.world().farm().books().slot(Slot(slot)) {
        None => String::from_str(alloc, "no such"),
        Some(row) => row_text(alloc, &row),
    }
}

fn row_text(alloc: Global, row: &SlotRow) -> Result<String, AllocError> {
    let state = frame_word(&row.frame);
    let version = row.version;
    format!(in alloc; "{state} version {}", version.0)
}

fn frame_word(frame: &Option<Frame>) -> &'static str {
    match frame {
        None => "FREE",
        Some(frame) => state_word(frame.state),
    }
}

/// A line to the scheduler, as it was sent.
pub fn sent_text(alloc: Global, stage: &Stage, line: u32) -> Result<String, AllocError> {
    match stage.world().sent().as_slice().get(line as usize) {
        None => String::from_str(alloc, "no such"),
        Some(sent) => String::from_str(alloc, sent.line.as_str()),
    }
}

/// A line to a host, as it was sent.
pub fn told_text(alloc: Global, stage: &Stage, reply: u32) -> Result<String, AllocError> {
    match stage.world().told().as_slice().get(reply as usize) {
        None => String::from_str(alloc, "no such"),
        Some(told) => String::from_str(alloc, shown(told.line.as_slice())),
    }
}
