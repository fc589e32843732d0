//! Lines to the scheduler as a reader sees them.

use crate::attempts::{attempt_texts, end_text};
use farm_lines::{Report, Request, RequestFault};
use farm_types::DoneItem;
use json::Scratch;
use report_codec::read_request;
use std::alloc::{AllocError, Global};

/// A host's line, as `boot nonce 7` or `report 2 boot 1 running 0/1 done 1/1=0/0`.
pub fn line_text(alloc: Global, line: &str) -> Result<String, AllocError> {
    let mut scratch = Scratch::new(alloc);
    match read_request(alloc, line.as_bytes(), &mut scratch) {
        Ok(request) => request_text(alloc, &request),
        Err(RequestFault::NoMemory) => Err(AllocError),
        Err(fault) => format!(in alloc; "{fault}"),
    }
}

// A request.
fn request_text(alloc: Global, request: &Request) -> Result<String, AllocError> {
    match request {
        Request::Boot(boot) => format!(in alloc; "boot nonce {}", boot.nonce),
        Request::Report(report) => report_text(alloc, report),
        _ => String::from_str(alloc, "an operator's line"),
    }
}

// A report.
fn report_text(alloc: Global, report: &Report) -> Result<String, AllocError> {
    let heard = &report.heard;
    let mut text = format!(in alloc; "report {} boot {}", heard.seq, heard.boot)?;
    if !report.running.is_empty() {
        text.push_str(" running")?;
        text.push_str(attempt_texts(alloc, report.running.as_slice())?.as_str())?;
    }
    if !heard.done.is_empty() {
        text.push_str(" done")?;
        text.push_str(done_texts(alloc, heard.done.as_slice())?.as_str())?;
    }
    Ok(text)
}

// Completions behind a blank each.
fn done_texts(alloc: Global, done: &[DoneItem]) -> Result<String, AllocError> {
    let mut text = String::new(alloc);
    for item in done {
        text.push(' ')?;
        text.push_str(done_text(alloc, item)?.as_str())?;
    }
    Ok(text)
}

// A completion, as `0/1=286/0 free 50` where the host tells what was free.
fn done_text(alloc: Global, item: &DoneItem) -> Result<String, AllocError> {
    let end = end_text(alloc, &item.attempt, item.exit)?;
    match item.free {
        None => Ok(end),
        Some(free) => format!(in alloc; "{end} free {}", free.0),
    }
}
