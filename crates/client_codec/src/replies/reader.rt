//! Reading a line as a reply.

ghost use Rattle.cue_json.specs.View.{members_view};
ghost use Rattle.cue_json.specs.Fields.{Gives};
ghost use Rattle.farm_lines.specs.ReplyLines.{read_or_none, reply_at, reply_of};
ghost use Rattle.client_codec.specs.Replies.{IsReply};

use crate::replies::done::read_ok;
use crate::replies::refusal::read_refusal;
use cue_json::{FieldFault, LineFault, Map};
use farm_lines::Reply;
use json::Scratch;
use std::alloc::Global;
use std::fmt;

/// Why a line gave no reply.
#[derive(Clone, Copy, Debug, PartialEq, Eq)]
pub enum ReplyFault {
    /// Its keys, kinds and limits are not exactly those of one kind of reply.
    NotAReply,
    /// Memory ran out.
    NoMemory,
}

impl fmt::Display for ReplyFault {
    fn fmt<W: fmt::Write>(&self, f: &mut fmt::Formatter<W>) -> fmt::Result {
        match self {
            ReplyFault::NotAReply => write!(f, "not a reply"),
            ReplyFault::NoMemory => write!(f, "out of memory"),
        }
    }
}

/// The reply that the line is. One wrong item makes the whole line no reply. Texts with escapes are read into the scratch.
#[tactic(auto, unfolding(farm_lines::specs::ReplyLines::reply_of))]
pub fn read_reply(alloc: Global, line: &[u8], scratch: &mut Scratch) -> Result<Reply, ReplyFault>
    ensures { IsReply result (reply_of line.now) }
{
    match cue_json::object_of(alloc, line, scratch) {
        Ok(object) => reply_in(alloc, &object),
        Err(LineFault::NotAnObject) => Err(ReplyFault::NotAReply),
        Err(LineFault::NoMemory) => Err(ReplyFault::NoMemory),
    }
}

// The reply that the object is.
fn reply_in(alloc: Global, object: &Map) -> Result<Reply, ReplyFault>
    ensures { IsReply result (read_or_none (reply_at (members_view object.now.items))) }
{
    match read_by_ok(alloc, object) {
        Ok(reply) => Ok(reply),
        Err(FieldFault::NoMemory) => Err(ReplyFault::NoMemory),
        Err(_fault) => Err(ReplyFault::NotAReply),
    }
}

// The reply that the object is, or its first field at fault.
fn read_by_ok(alloc: Global, object: &Map) -> Result<Reply, FieldFault>
    ensures { Gives (λ reply. reply) result (reply_at (members_view object.now.items)) }
{
    if cue_json::flag(alloc, object, "ok")? {
        read_ok(alloc, object)
    } else {
        read_refusal(alloc, object)
    }
}
