//! Lines of bytes, counted from 0.

use std::alloc::{AllocError, Global};

/// The line of that number, without its newline.
pub fn line_at(bytes: &[u8], number: usize) -> &[u8] {
    bytes
        .split(|byte| *byte == b'\n')
        .nth(number)
        .unwrap_or(&[])
}

/// The lines before that of the number, and those from it on.
pub fn cut_before(bytes: &[u8], number: usize) -> (&[u8], &[u8]) {
    let place = place_of(bytes, number);
    (
        bytes.get(..place).unwrap_or(bytes),
        bytes.get(place..).unwrap_or(&[]),
    )
}

// Where the line of that number begins.
fn place_of(bytes: &[u8], number: usize) -> usize {
    let mut newlines: usize = 0;
    for (place, byte) in bytes.iter().enumerate() {
        if newlines == number {
            return place;
        }
        if *byte == b'\n' {
            newlines = newlines.saturating_add(1);
        }
    }
    bytes.len()
}

/// How many whole lines there are.
pub fn lines_in(bytes: &[u8]) -> usize {
    let mut lines: usize = 0;
    for byte in bytes {
        if *byte == b'\n' {
            lines = lines.saturating_add(1);
        }
    }
    lines
}

/// The lines without that of the number.
pub fn without_line(alloc: Global, bytes: &[u8], number: usize) -> Result<Vec<u8>, AllocError> {
    let (front, rest) = cut_before(bytes, number);
    let (_line, rest) = cut_before(rest, 1);
    let mut others = Vec::new(alloc);
    others.extend_from_slice(front)?;
    others.extend_from_slice(rest)?;
    Ok(others)
}

/// The number of the first line that differs.
pub fn first_other(told: &[u8], came: &[u8]) -> usize {
    let told_lines = told.split(|byte| *byte == b'\n');
    let came_lines = came.split(|byte| *byte == b'\n');
    let mut number: usize = 0;
    for (told, came) in told_lines.zip(came_lines) {
        if told != came {
            return number;
        }
        number = number.saturating_add(1);
    }
    number
}
