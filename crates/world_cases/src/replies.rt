//! Replies to hosts as a reader sees them.

use crate::reports::report_reply_text;
use client_codec::{ReplyFault, read_reply};
use farm_lines::Reply;
use json::Scratch;
use std::alloc::{AllocError, Global};

/// A reply, as `boot 1 nonce 7`, `report 2 acks 0/1` or `refused: the store failed`.
pub fn reply_text(alloc: Global, line: &[u8]) -> Result<String, AllocError> {
    let mut scratch = Scratch::new(alloc);
    match read_reply(alloc, line, &mut scratch) {
        Ok(reply) => text_of(alloc, &reply),
        Err(ReplyFault::NotAReply) => String::from_str(alloc, "no reply"),
        Err(ReplyFault::NoMemory) => Err(AllocError),
    }
}

fn text_of(alloc: Global, reply: &Reply) -> Result<String, AllocError> {
    match reply {
        Reply::Boot { boot, nonce } => format!(in alloc; "boot {boot} nonce {nonce}"),
        Reply::Report(report) => report_reply_text(alloc, report),
        Reply::Refused(why) => format!(in alloc; "refused: {why}"),
        Reply::Store => String::from_str(alloc, "refused: the store failed"),
        Reply::StillHeld { cores, memory } => {
            format!(in alloc; "refused: cores {} memory {} are free", cores.0, memory.0)
        }
        Reply::BadLine { field } => {
            format!(in alloc; "refused: field `{}` is malformed", field.as_str())
        }
        Reply::BadAmount { field } => {
            format!(in alloc; "refused: field `{}` is outside its limits", field.as_str())
        }
        Reply::TooLong => String::from_str(alloc, "refused: too long"),
        _ => String::from_str(alloc, "another reply"),
    }
}
