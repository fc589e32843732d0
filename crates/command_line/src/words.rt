//! The words that a program is run with.

ghost use Rattle.std.specs.Prelude.{◌≡◌, [], IfOk, drop, map, string_bytes};
ghost use Rattle.std.specs.Vec.Iter.{into_iter_items};
ghost use Rattle.command_line.specs.Words.{IsUnread};

use farm_types::{Items, Text};
use std::alloc::{AllocError, Global};
use std::env::{self, Args, Env};
use std::io::ErrorKind;

/// The words after the program's name. There are none where one of them isn't text in UTF-8: such a word is of no form, so that a program ends as it does
/// without words. An error is want of memory.
pub fn words_of<R: Env + AllocGlobal>(rt: &R) -> Result<Items<Text>, AllocError> {
    match env::args(rt) {
        Ok(args) => words_after_name(rt.alloc(), args),
        Err(error) => unread(rt.alloc(), error.kind()),
    }
}

// The arguments after the first one, in their order.
fn words_after_name(alloc: Global, args: Args) -> Result<Items<Text>, AllocError>
    ensures { IfOk result (λ words. words ≡ map string_bytes (drop 1 (into_iter_items args))) }
{
    let mut rest = args;
    let _name = rest.next();
    texts_of(alloc, rest)
}

// The arguments as texts, in their order.
fn texts_of(alloc: Global, args: Args) -> Result<Items<Text>, AllocError>
    ensures { IfOk result (λ words. words ≡ map string_bytes (into_iter_items args)) }
{
    let mut words = Items::new(alloc);
    for word in args {
        words.push(Text::from_string(word))?;
    }
    Ok(words)
}

// What there is where the arguments can't be read: no word, or want of memory.
fn unread(alloc: Global, kind: ErrorKind) -> Result<Items<Text>, AllocError>
    ensures { IsUnread kind result }
{
    match kind {
        ErrorKind::OutOfMemory => Err(AllocError),
        _ => Ok(Items::new(alloc)),
    }
}
