//! What bytes a line of a case stands for. A line is mostly pasted as it is; what can't be pasted stands in it between
//! `«` and `»`.

use crate::line_fault::LineFault;
use crate::numbers::{Times, times_of};
use std::alloc::Global;

/// Adds the bytes of a line, behind the blank that it begins with, and its newline, unless the line ends in `«end»`.
pub fn add_line(alloc: Global, bytes: &mut Vec<u8>, line: &str) -> Result<(), LineFault> {
    let line = line.strip_prefix(' ').unwrap_or(line);
    if let Some(text) = line.strip_suffix("«end»") {
        add_text(alloc, bytes, text)
    } else {
        add_text(alloc, bytes, line)?;
        bytes.push(b'\n')?;
        Ok(())
    }
}

/// The bytes of a text.
pub fn text_bytes(alloc: Global, text: &str) -> Result<Vec<u8>, LineFault> {
    let mut bytes = Vec::new(alloc);
    add_text(alloc, &mut bytes, text)?;
    Ok(bytes)
}

// Adds the bytes of a text.
fn add_text(alloc: Global, bytes: &mut Vec<u8>, text: &str) -> Result<(), LineFault> {
    let Some((pasted, marked)) = text.split_once('«') else {
        bytes.extend_from_slice(text.as_bytes())?;
        return Ok(());
    };
    bytes.extend_from_slice(pasted.as_bytes())?;
    for piece in marked.split('«') {
        let Some((mark, pasted)) = piece.split_once('»') else {
            return Err(LineFault::Malformed);
        };
        add_mark(alloc, bytes, mark)?;
        bytes.extend_from_slice(pasted.as_bytes())?;
    }
    Ok(())
}

// Adds what a mark stands for: `bytes` and their two digits each, or a text that is repeated.
fn add_mark(alloc: Global, bytes: &mut Vec<u8>, mark: &str) -> Result<(), LineFault> {
    if let Some(digits) = mark.strip_prefix("bytes ") {
        add_bytes(bytes, digits)
    } else if let Some((times, text)) = mark.split_once('×') {
        add_repeated(alloc, bytes, times_of(times)?, text)
    } else {
        Err(LineFault::Malformed)
    }
}

// Adds a text so many times, with its number in place of each `№`.
fn add_repeated(
    alloc: Global,
    bytes: &mut Vec<u8>,
    times: Times,
    text: &str,
) -> Result<(), LineFault> {
    let is_numbered = text.contains('№');
    for number in times.first..times.past {
        if is_numbered {
            let text = numbered(alloc, text, number)?;
            bytes.extend_from_slice(text.as_bytes())?;
        } else {
            bytes.extend_from_slice(text.as_bytes())?;
        }
    }
    Ok(())
}

// Adds bytes that are written by two digits each, with blanks between them.
fn add_bytes(bytes: &mut Vec<u8>, digits: &str) -> Result<(), LineFault> {
    for word in digits.split_whitespace() {
        let Ok(byte) = u8::from_str_radix(word, 16) else {
            return Err(LineFault::Malformed);
        };
        bytes.push(byte)?;
    }
    Ok(())
}

/// The text with a number in place of each `№`.
pub fn numbered(alloc: Global, text: &str, number: u64) -> Result<String, LineFault> {
    let number = format!(in alloc; "{number}")?;
    Ok(text.replace(alloc, '№', number.as_str())?)
}
