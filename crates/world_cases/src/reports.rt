//! Replies to reports.

use crate::attempts::{attempt_text, attempt_texts};
use farm_lines::{Launch, ReportReply};
use farm_types::Attempt;
use state_names::cut_word;
use std::alloc::{AllocError, Global};

/// A reply to a report, as `report 2 acks 0/1 kills 1/1 launches 2/1 cut store`, of which what is empty is left out.
pub fn report_reply_text(alloc: Global, reply: &ReportReply) -> Result<String, AllocError> {
    let mut text = format!(in alloc; "report {}", reply.seq)?;
    text.push_str(listed(alloc, " acks", reply.acks.as_slice())?.as_str())?;
    text.push_str(listed(alloc, " kills", reply.kills.as_slice())?.as_str())?;
    text.push_str(launch_texts(alloc, reply.launches.as_slice())?.as_str())?;
    let cut = cut_word(reply.cut);
    if !cut.is_empty() {
        text.push_str(" cut ")?;
        text.push_str(cut)?;
    }
    Ok(text)
}

// Attempts behind a word, or nothing where there are none.
fn listed(alloc: Global, word: &str, attempts: &[Attempt]) -> Result<String, AllocError> {
    if attempts.is_empty() {
        return Ok(String::new(alloc));
    }
    let attempts = attempt_texts(alloc, attempts)?;
    format!(in alloc; "{word}{attempts}")
}

// The attempts of launches behind a word, or nothing where there are none.
fn launch_texts(alloc: Global, launches: &[Launch]) -> Result<String, AllocError> {
    let mut text = String::new(alloc);
    if launches.is_empty() {
        return Ok(text);
    }
    text.push_str(" launches")?;
    for launch in launches {
        text.push(' ')?;
        text.push_str(attempt_text(alloc, &launch.attempt)?.as_str())?;
    }
    Ok(text)
}
