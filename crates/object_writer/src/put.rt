//! Bytes that are put into a room from a place on. Each call gives the place behind them. Those in place put the bytes of a literal by a few moves.

ghost use Rattle.std.specs.Prelude.{◌≡◌, ◌+◌, ◌<◌, ◌≤◌, ◌++◌, ◌∷◌, [], cond, decimal, length, IfOk};
ghost use Rattle.std.specs.Fmt.{signed_decimal};
ghost use Rattle.json.specs.Print.{IsPrintable, token_text};
ghost use Rattle.json.specs.Reads.{token_of};
ghost use Rattle.json.specs.Token.{boolean};
ghost use Rattle.object_writer.specs.Written.{HasPut, is_plain, is_plain_byte};

use json::{Token, Writer};
use std::alloc::{AllocError, Global};

/// One byte.
#[inline(always)]
pub(crate) fn put_byte(room: &mut [u8], at: usize, byte: u8) -> usize
    requires { at < length room.old }
    ensures { HasPut room.old room.new at (byte ∷ []) result }
{
    room[at] = byte;
    at + 1
}

/// Bytes as they are.
#[inline(always)]
pub(crate) fn put(room: &mut [u8], at: usize, bytes: &[u8]) -> usize
    requires { at + length bytes.now ≤ length room.old }
    ensures { HasPut room.old room.new at bytes.now result }
{
    let end = at + bytes.len();
    room[at..end].copy_from_slice(bytes);
    end
}

/// The comma behind a value. It is always put, and counts only where there is a value.
#[inline(always)]
pub(crate) fn put_comma(room: &mut [u8], at: usize, after_value: bool) -> usize
    requires { at < length room.old }
    ensures { HasPut room.old room.new at (cond after_value (44 ∷ []) []) result }
{
    room[at] = b',';
    if after_value { at + 1 } else { at }
}

/// A member's name in quotes, with its colon, and the comma before it.
#[inline(always)]
pub(crate) fn put_name(room: &mut [u8], at: usize, after_value: bool, name: &[u8]) -> usize
    requires { at + (length name.now + 4) ≤ length room.old }
    ensures { HasPut room.old room.new at (cond after_value (44 ∷ []) [] ++ 34 ∷ (name.now ++ 34 ∷ 58 ∷ [])) result }
{
    let at = put_comma(room, at, after_value);
    let at = put_byte(room, at, b'"');
    let at = put(room, at, name);
    put(room, at, b"\":")
}

/// A text in quotes whose bytes stand for themselves, and the comma before it.
#[inline(always)]
pub(crate) fn put_text(room: &mut [u8], at: usize, after_value: bool, text: &[u8]) -> usize
    requires { at + (length text.now + 3) ≤ length room.old }
    ensures { HasPut room.old room.new at (cond after_value (44 ∷ []) [] ++ 34 ∷ (text.now ++ 34 ∷ [])) result }
{
    let at = put_comma(room, at, after_value);
    put_quoted(room, at, text)
}

/// A text in quotes whose bytes stand for themselves.
#[inline(always)]
pub(crate) fn put_quoted(room: &mut [u8], at: usize, text: &[u8]) -> usize
    requires { at + (length text.now + 2) ≤ length room.old }
    ensures { HasPut room.old room.new at (34 ∷ (text.now ++ 34 ∷ [])) result }
{
    let at = put_byte(room, at, b'"');
    let at = put(room, at, text);
    put_byte(room, at, b'"')
}

/// A whole number's digits. Those of one digit are by far the most.
#[inline(never)]
pub(crate) fn put_decimal(room: &mut [u8], at: usize, value: u64) -> usize
    requires { at + 40 ≤ length room.old }
    ensures { HasPut room.old room.new at (decimal value) result }
{
    if value < 10 {
        return put_byte(room, at, b'0' + value as u8);
    }
    let mut digits = itoa::Buffer::new();
    put(room, at, digits.format(value).as_bytes())
}

/// The digits of a number with a sign.
#[inline(never)]
pub(crate) fn put_signed(room: &mut [u8], at: usize, value: i32) -> usize
    requires { at + 40 ≤ length room.old }
    ensures { HasPut room.old room.new at (signed_decimal value) result }
{
    let mut digits = itoa::Buffer::new();
    put(room, at, digits.format(i64::from(value)).as_bytes())
}

/// What stands for true or false.
#[inline(always)]
pub(crate) fn truth_word(value: bool) -> &'static str
    ensures text { result.now ≡ token_text (boolean value) }
    ensures short { length result.now ≤ 40 }
{
    if value { "true" } else { "false" }
}

/// Whether each byte of the text stands for itself.
#[inline(never)]
pub(crate) fn is_plain(text: &[u8]) -> bool
    ensures { result ≡ is_plain text.now }
{
    for byte in text {
        if !is_plain_byte(*byte) {
            return false;
        }
    }
    true
}

// Whether the byte stands for itself. Small letters are told first.
#[inline(always)]
fn is_plain_byte(byte: u8) -> bool
    ensures { result ≡ is_plain_byte byte }
{
    byte > b'\\' || (byte >= 32 && byte != b'"' && byte != b'\\')
}

/// The text of a token, with escapes where it has any.
pub(crate) fn escaped(alloc: Global, token: Token<'_>) -> Result<Vec<u8>, AllocError>
    requires { IsPrintable (token_of token) }
    ensures { IfOk result (λ text. text.items ≡ token_text (token_of token.entry)) }
{
    let mut writer = Writer::new(Vec::new(alloc));
    writer.token(token)?;
    Ok(writer.into_inner())
}
