//! Replies as lines, each with its newline.

ghost use Rattle.std.specs.Prelude.{◌≡◌, ◌++◌, ◌∷◌, [], IfOk, false};
ghost use Rattle.farm_lines.specs.declared.reply.Reply.TheVariants.{Refused};
ghost use Rattle.farm_lines.specs.Reply.{reply_text};
ghost use Rattle.line_answers.specs.Lines.{IsLineOf, is_store_line, shown};

use farm_lines::Reply;
use farm_types::{Items, Refusal};
use report_codec::write_reply;
use std::alloc::{AllocError, Global};

const TOO_LONG: &str = "{\"code\":2,\"ok\":false,\"why\":\"too_long\"}\n";

const STORE: &str = "{\"code\":15,\"ok\":false,\"why\":\"store\"}\n";

const NO_MEMORY: &str = "{\"code\":16,\"ok\":false,\"why\":\"memory\"}\n";

/// The line of a reply: one that was written for it, or one of the three that take no memory.
#[derive(Drop)]
pub enum ReplyLine {
    Written(Items<u8>),
    TooLong,
    Store,
    NoMemory,
}

impl ReplyLine {
    /// The line's bytes, its newline too.
    #[tactic(auto, using(crate::proofs::LineLemmas::too_long_text, crate::proofs::LineLemmas::store_text, crate::proofs::LineLemmas::no_memory_text))]
    pub fn bytes(&self) -> &[u8]
        ensures { result.now ≡ shown self.now }
    {
        match self {
            ReplyLine::Written(line) => line.as_slice(),
            ReplyLine::TooLong => TOO_LONG.as_bytes(),
            ReplyLine::Store => STORE.as_bytes(),
            ReplyLine::NoMemory => NO_MEMORY.as_bytes(),
        }
    }
}

/// The line of the reply, or that memory ran out.
pub fn line_of(alloc: Global, reply: &Reply) -> ReplyLine
    ensures line { IsLineOf reply.now (shown result) }
    ensures never_store { is_store_line result ≡ false }
{
    match write_line(alloc, reply) {
        Ok(line) => ReplyLine::Written(line),
        Err(_) => ReplyLine::NoMemory,
    }
}

/// The line of a refusal, or that memory ran out.
pub fn refusal_line(alloc: Global, why: Refusal) -> ReplyLine
    ensures line { IsLineOf (Refused why) (shown result) }
    ensures never_store { is_store_line result ≡ false }
{
    line_of(alloc, &Reply::Refused(why))
}

/// The reply's bytes with a newline, which is added to the bytes themselves.
pub fn write_line(alloc: Global, reply: &Reply) -> Result<Items<u8>, AllocError>
    ensures { IfOk result (λ line. line ≡ reply_text reply.now ++ 10 ∷ []) }
{
    let mut line = write_reply(alloc, reply)?;
    line.push(b'\n')?;
    Ok(line)
}
