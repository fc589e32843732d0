//! A text in the first bytes of a vector, which is written on where it ends. Each call gives where it ends then; at an error the text is as before.
//! A member's name is put in place, so that a literal's bytes are known there.

ghost use Rattle.std.specs.Prelude.{◌≡◌, ◌+◌, ◌≤◌, ◌++◌, ◌∷◌, [], cond, decimal, length, take, true, IfOk, OnErr, OnOk};
ghost use Rattle.std.specs.Fmt.{signed_decimal};
ghost use Rattle.json.specs.Print.{quoted};
ghost use Rattle.object_writer.specs.Written.{HasWritten, KeepsText, is_plain};

use crate::put::{
    escaped, is_plain, put, put_comma, put_decimal, put_name, put_quoted, put_signed, put_text,
};
use json::Token;
use std::alloc::AllocError;

/// Bytes as they are, with the comma that stands before them.
#[inline(always)]
pub(crate) fn write_bare(
    room: &mut Vec<u8>,
    len: usize,
    comma: bool,
    bytes: &[u8],
) -> Result<usize, AllocError>
    requires { len ≤ length room.old.items }
    ensures kept { OnErr result (KeepsText room.old.items room.new.items len) }
    ensures wrote { IfOk result (HasWritten room.old.items room.new.items len (cond comma (44 ∷ []) [] ++ bytes.now)) }
{
    make_room(room, len, bytes.len() + 1)?;
    let bytes_of = room.as_mut_slice();
    let at = put_comma(bytes_of, len, comma);
    Ok(put(bytes_of, at, bytes))
}

/// A member whose name is plain, and whose value's bytes stand for themselves.
#[inline(always)]
pub(crate) fn write_member(
    room: &mut Vec<u8>,
    len: usize,
    comma: bool,
    name: &str,
    value: &[u8],
) -> Result<usize, AllocError>
    requires within { len ≤ length room.old.items }
    requires short { length value.now ≤ 40 }
    ensures kept { OnErr result (KeepsText room.old.items room.new.items len) }
    ensures wrote { IfOk result (HasWritten room.old.items room.new.items len
        (cond comma (44 ∷ []) [] ++ 34 ∷ (name.now ++ 34 ∷ 58 ∷ value.now))) }
{
    make_room(room, len, name.len() + value.len() + 4)?;
    let bytes = room.as_mut_slice();
    let at = put_name(bytes, len, comma, name.as_bytes());
    Ok(put(bytes, at, value))
}

/// A member whose name is plain, and whose value is a whole number.
#[inline(always)]
pub(crate) fn write_number(
    room: &mut Vec<u8>,
    len: usize,
    comma: bool,
    name: &str,
    value: u64,
) -> Result<usize, AllocError>
    requires { len ≤ length room.old.items }
    ensures kept { OnErr result (KeepsText room.old.items room.new.items len) }
    ensures wrote { IfOk result (HasWritten room.old.items room.new.items len
        (cond comma (44 ∷ []) [] ++ 34 ∷ (name.now ++ 34 ∷ 58 ∷ decimal value))) }
{
    make_room(room, len, name.len() + 44)?;
    let bytes = room.as_mut_slice();
    let at = put_name(bytes, len, comma, name.as_bytes());
    Ok(put_decimal(bytes, at, value))
}

/// A member whose name is plain, and whose value is a number with a sign.
#[inline(always)]
pub(crate) fn write_signed(
    room: &mut Vec<u8>,
    len: usize,
    comma: bool,
    name: &str,
    value: i32,
) -> Result<usize, AllocError>
    requires { len ≤ length room.old.items }
    ensures kept { OnErr result (KeepsText room.old.items room.new.items len) }
    ensures wrote { IfOk result (HasWritten room.old.items room.new.items len
        (cond comma (44 ∷ []) [] ++ 34 ∷ (name.now ++ 34 ∷ 58 ∷ signed_decimal value))) }
{
    make_room(room, len, name.len() + 44)?;
    let bytes = room.as_mut_slice();
    let at = put_name(bytes, len, comma, name.as_bytes());
    Ok(put_signed(bytes, at, value))
}

/// A member whose name is plain, and whose value is a text. It is written as it is where its bytes stand for themselves.
#[inline(always)]
pub(crate) fn write_text(
    room: &mut Vec<u8>,
    len: usize,
    comma: bool,
    name: &str,
    value: &str,
) -> Result<usize, AllocError>
    requires { len ≤ length room.old.items }
    ensures kept { OnErr result (KeepsText room.old.items room.new.items len) }
    ensures wrote { IfOk result (HasWritten room.old.items room.new.items len
        (cond comma (44 ∷ []) [] ++ 34 ∷ (name.now ++ 34 ∷ 58 ∷ quoted value.now))) }
{
    if !is_plain(value.as_bytes()) {
        return write_escaped(room, len, comma, name, value);
    }
    write_plain_text(room, len, comma, name, value)
}

/// The same of a value whose bytes stand for themselves, as those of a word do.
#[inline(always)]
pub(crate) fn write_word(
    room: &mut Vec<u8>,
    len: usize,
    comma: bool,
    name: &str,
    value: &str,
) -> Result<usize, AllocError>
    requires len { len ≤ length room.old.items }
    requires plain { is_plain value.now ≡ true }
    ensures kept { OnErr result (KeepsText room.old.items room.new.items len) }
    ensures wrote { IfOk result (HasWritten room.old.items room.new.items len
        (cond comma (44 ∷ []) [] ++ 34 ∷ (name.now ++ 34 ∷ 58 ∷ quoted value.now))) }
{
    write_plain_text(room, len, comma, name, value)
}

// The same of a text that has escapes, which few have.
#[cold]
#[inline(never)]
fn write_escaped(
    room: &mut Vec<u8>,
    len: usize,
    comma: bool,
    name: &str,
    value: &str,
) -> Result<usize, AllocError>
    requires { len ≤ length room.old.items }
    ensures kept { OnErr result (KeepsText room.old.items room.new.items len) }
    ensures wrote { IfOk result (HasWritten room.old.items room.new.items len
        (cond comma (44 ∷ []) [] ++ 34 ∷ (name.now ++ 34 ∷ 58 ∷ quoted value.now))) }
{
    let text = escaped(*room.allocator(), Token::String(value))?;
    make_room(room, len, sum(name.len(), text.len() + 4)?)?;
    let bytes = room.as_mut_slice();
    let at = put_name(bytes, len, comma, name.as_bytes());
    Ok(put(bytes, at, text.as_slice()))
}

// The same of a text in quotes.
#[inline(always)]
fn write_plain_text(
    room: &mut Vec<u8>,
    len: usize,
    comma: bool,
    name: &str,
    value: &str,
) -> Result<usize, AllocError>
    requires { len ≤ length room.old.items }
    ensures kept { OnErr result (KeepsText room.old.items room.new.items len) }
    ensures wrote { IfOk result (HasWritten room.old.items room.new.items len
        (cond comma (44 ∷ []) [] ++ 34 ∷ (name.now ++ 34 ∷ 58 ∷ 34 ∷ (value.now ++ 34 ∷ [])))) }
{
    make_room(room, len, sum(name.len(), value.len() + 6)?)?;
    let bytes = room.as_mut_slice();
    let at = put_name(bytes, len, comma, name.as_bytes());
    Ok(put_quoted(bytes, at, value.as_bytes()))
}

// So many bytes together, for which there is no memory where they are past all numbers.
#[inline(always)]
fn sum(one: usize, other: usize) -> Result<usize, AllocError>
    ensures { IfOk result (λ sum. sum ≡ one + other) }
{
    match one.checked_add(other) {
        Some(sum) => Ok(sum),
        None => Err(AllocError),
    }
}

/// A text in quotes, with the comma that stands before it.
#[inline(always)]
pub(crate) fn write_quoted(
    room: &mut Vec<u8>,
    len: usize,
    comma: bool,
    value: &str,
) -> Result<usize, AllocError>
    requires { len ≤ length room.old.items }
    ensures kept { OnErr result (KeepsText room.old.items room.new.items len) }
    ensures wrote { IfOk result (HasWritten room.old.items room.new.items len (cond comma (44 ∷ []) [] ++ quoted value.now)) }
{
    if !is_plain(value.as_bytes()) {
        let text = escaped(*room.allocator(), Token::String(value))?;
        return write_bare(room, len, comma, text.as_slice());
    }
    write_plain(room, len, comma, value)
}

// The same of a text whose bytes stand for themselves.
#[inline(always)]
fn write_plain(
    room: &mut Vec<u8>,
    len: usize,
    comma: bool,
    value: &str,
) -> Result<usize, AllocError>
    requires { len ≤ length room.old.items }
    ensures kept { OnErr result (KeepsText room.old.items room.new.items len) }
    ensures wrote { IfOk result (HasWritten room.old.items room.new.items len (cond comma (44 ∷ []) [] ++ 34 ∷ (value.now ++ 34 ∷ []))) }
{
    make_room(room, len, value.len() + 3)?;
    let bytes = room.as_mut_slice();
    Ok(put_text(bytes, len, comma, value.as_bytes()))
}

// So many bytes behind the text.
#[inline(always)]
fn make_room(room: &mut Vec<u8>, len: usize, more: usize) -> Result<(), AllocError>
    requires { len ≤ length room.old.items }
    ensures kept { KeepsText room.old.items room.new.items len }
    ensures room { OnOk result (len + more ≤ length room.new.items) }
{
    if more <= room.len() - len {
        return Ok(());
    }
    grow(room, more)
}

// So many bytes more, and all that there is memory for. It is kept out of its caller, which is then short enough to be put in place.
#[cold]
#[inline(never)]
fn grow(room: &mut Vec<u8>, more: usize) -> Result<(), AllocError>
    ensures kept { take (length room.old.items) room.new.items ≡ room.old.items }
    ensures room { OnOk result (length room.old.items + more ≤ length room.new.items) }
{
    room.reserve(more)?;
    let end = room.capacity();
    room.resize(end, 0)
}
