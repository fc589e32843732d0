//! What is printed of a reply, and with which status.

ghost use Rattle.std.specs.Prelude.{◌≡◌, IfOk, option_map};
ghost use Rattle.farm_lines.specs.ReplyLines.{reply_of};
ghost use Rattle.cue_tool.specs.Answers.{as_it_came, as_table, is_refusal, list_word, ok_shown, read_shown, shown_of};

use crate::listing::listing;
use client_codec::{ReplyFault, read_reply};
use command_line::Status;
use farm_lines::Reply;
use farm_types::{Items, Text};
use json::Scratch;
use std::alloc::{AllocError, Global};

/// A status, and the bytes that are printed with it.
#[derive(Drop)]
pub(crate) struct Shown {
    pub status: Status,
    pub text: Items<u8>,
}

/// What is printed of the line that came for these words. None where it doesn't count as a reply to them.
pub(crate) fn read_shown(
    alloc: Global,
    words: &[Text],
    line: &[u8],
) -> Result<Option<Shown>, AllocError>
    ensures { IfOk result (λ shown. shown ≡ read_shown words.now line.now (reply_of line.now)) }
{
    let mut scratch = Scratch::new(alloc);
    match read_reply(alloc, line, &mut scratch) {
        Ok(reply) => shown_of(alloc, words, line, &reply),
        Err(ReplyFault::NotAReply) => Ok(None),
        Err(ReplyFault::NoMemory) => Err(AllocError),
    }
}

// What is printed of a reply to these words.
fn shown_of(
    alloc: Global,
    words: &[Text],
    line: &[u8],
    reply: &Reply,
) -> Result<Option<Shown>, AllocError>
    ensures { IfOk result (λ shown. shown ≡ shown_of words.now line.now reply.now) }
{
    if is_refusal(reply) {
        Ok(Some(as_it_came(alloc, Status::Refused, line)?))
    } else {
        ok_shown(alloc, list_word(words), line, reply)
    }
}

// What is printed of an ok reply, to the words that ask for this list, or for none.
fn ok_shown(
    alloc: Global,
    what: Option<&str>,
    line: &[u8],
    reply: &Reply,
) -> Result<Option<Shown>, AllocError>
    ensures { IfOk result (λ shown. shown ≡ ok_shown (option_map (λ word. word.now) what.entry) line.now reply.now) }
{
    match (what, reply) {
        (None, _) => Ok(Some(as_it_came(alloc, Status::Done, line)?)),
        (Some(what), Reply::List(list)) => Ok(listing(alloc, what, list)?.map(as_table)),
        (Some(_), _) => Ok(None),
    }
}

// A line as it came, with its newline.
fn as_it_came(alloc: Global, status: Status, line: &[u8]) -> Result<Shown, AllocError>
    ensures { IfOk result (λ shown. shown ≡ as_it_came status line.now) }
{
    let mut text = Vec::from_slice(alloc, line)?;
    text.push(b'\n')?;
    Ok(Shown {
        status,
        text: Items::from_vec(text),
    })
}

// A table.
fn as_table(text: Text) -> Shown
    ensures { result ≡ as_table text }
{
    Shown {
        status: Status::Done,
        text: Items::from_vec(text.into_string().into_bytes()),
    }
}

// The list that the words ask for, as they name it.
fn list_word(words: &[Text]) -> Option<&str>
    ensures { option_map (λ word. word.now) result ≡ list_word words.now }
{
    match words {
        [command, what, ..] if command.is("list") => Some(what.as_str()),
        _ => None,
    }
}

// Whether the reply refuses what was asked.
fn is_refusal(reply: &Reply) -> bool
    ensures { result ≡ is_refusal reply.now }
{
    matches!(
        reply,
        Reply::BadLine { .. }
            | Reply::TooLong
            | Reply::BadRange { .. }
            | Reply::BadAmount { .. }
            | Reply::Refused(_)
            | Reply::StillHeld { .. }
            | Reply::EntriesFull
            | Reply::Store
            | Reply::NoMemory
    )
}
