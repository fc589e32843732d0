//! Entries as a reader sees them.

use farm_types::{Act, Entry};
use std::alloc::{AllocError, Global};

/// The entries from that place on, with commas between them, as `heard h1, book 0`; or that there are none.
pub fn entries_from(alloc: Global, entries: &[Entry], place: usize) -> Result<String, AllocError> {
    let mut text = String::new(alloc);
    for entry in entries.iter().skip(place) {
        if !text.is_empty() {
            text.push_str(", ")?;
        }
        text.push_str(act_text(alloc, &entry.act)?.as_str())?;
    }
    if text.is_empty() {
        text.push_str("nothing")?;
    }
    Ok(text)
}

// What an entry does, and of whom it tells.
fn act_text(alloc: Global, act: &Act) -> Result<String, AllocError> {
    match act {
        Act::Boot(line) => format!(in alloc; "boot {}", line.host.as_str()),
        Act::Heard(heard) => format!(in alloc; "heard {}", heard.host.as_str()),
        Act::Book { slot, .. } => format!(in alloc; "book {}", slot.0),
        _ => String::from_str(alloc, act_word(act)),
    }
}

// The word of what an operator does, or of a start.
fn act_word(act: &Act) -> &'static str {
    match act {
        Act::Opened => "opened",
        Act::Show { .. } => "show",
        Act::Alloc { .. } => "alloc",
        Act::Sub(_) => "sub",
        Act::Limit { .. } => "limit",
        Act::Submit(_) => "submit",
        Act::AddDepend(_) => "depend",
        Act::DropDepend { .. } => "drop",
        Act::Pause { .. } => "pause",
        Act::KillJob { .. } | Act::KillFrame(_) => "kill",
        Act::EatFrame(_) => "eat",
        Act::RetryFrame(_) => "retry",
        Act::Lock { .. } => "lock",
        Act::Tick => "tick",
        Act::Boot(_) => "boot",
        Act::Heard(_) => "heard",
        Act::Book { .. } => "book",
    }
}
