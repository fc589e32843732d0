//! Numbers in cases and in rows.

use crate::line_fault::LineFault;
use std::alloc::Global;

/// Numbers with blanks between them.
pub fn numbers_of(alloc: Global, text: &str) -> Result<Vec<u64>, LineFault> {
    let mut numbers = Vec::new(alloc);
    for word in text.split_whitespace() {
        let Ok(number) = word.parse::<u64>() else {
            return Err(LineFault::Malformed);
        };
        numbers.push(number)?;
    }
    Ok(numbers)
}

/// How often a text or a line stands, and the numbers that it stands with: from the first to the one before `past`.
#[derive(Clone, Copy, Debug, PartialEq, Eq)]
pub struct Times {
    pub first: u64,
    pub past: u64,
}

/// How often `64`, which counts from 1, or `0-63` is.
pub fn times_of(text: &str) -> Result<Times, LineFault> {
    let (first, last) = text.split_once('-').unwrap_or(("1", text));
    let first = number_of(first)?;
    let last = number_of(last)?;
    Ok(Times {
        first: u64::from(first),
        past: u64::from(last) + 1,
    })
}

/// A number.
pub fn number_of(text: &str) -> Result<u32, LineFault> {
    text.parse::<u32>().map_err(|_| LineFault::Malformed)
}

/// A status.
pub fn status_of(text: &str) -> Result<u8, LineFault> {
    text.parse::<u8>().map_err(|_| LineFault::Malformed)
}

/// How many bytes `7 bytes` or `1 byte` are.
pub fn bytes_of(text: &str) -> Result<usize, LineFault> {
    let (number, unit) = text.split_once(' ').unwrap_or((text, ""));
    if unit != "bytes" && unit != "byte" {
        return Err(LineFault::Malformed);
    }
    number.parse::<usize>().map_err(|_| LineFault::Malformed)
}

/// How many bytes `at most 7 bytes` are.
pub fn most_bytes_of(text: &str) -> Result<usize, LineFault> {
    match text.strip_prefix("at most ") {
        Some(bytes) => bytes_of(bytes),
        None => Err(LineFault::Malformed),
    }
}
