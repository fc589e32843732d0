//! Frame ranges: their numbers, how many there are, where one stands, and how they print.

use case_text::{Calls, LineFault, unquoted};
use frame_range::{FrameSet, RangeFault, parse_set};
use std::alloc::Global;

/// Calls for frame ranges.
#[derive(Clone, Copy, Debug, PartialEq, Eq)]
pub enum RangeCall {
    Numbers,
    Counts,
    Places,
    Prints,
}

impl RangeCall {
    /// All of them, in the order in which their files are read.
    pub const ALL: [RangeCall; 4] = [
        RangeCall::Numbers,
        RangeCall::Counts,
        RangeCall::Places,
        RangeCall::Prints,
    ];
}

impl Calls for RangeCall {
    fn file_name(&self) -> &'static str {
        match self {
            RangeCall::Numbers => "range_numbers.rows",
            RangeCall::Counts => "range_counts.rows",
            RangeCall::Places => "range_places.rows",
            RangeCall::Prints => "range_prints.rows",
        }
    }

    fn answer(&self, alloc: Global, given: &str) -> Result<String, LineFault> {
        match self {
            RangeCall::Numbers => numbers(alloc, given),
            RangeCall::Counts => count(alloc, given),
            RangeCall::Places => place(alloc, given),
            RangeCall::Prints => printed(alloc, given),
        }
    }
}

// The range's numbers, or its fault.
fn numbers(alloc: Global, given: &str) -> Result<String, LineFault> {
    match parse_set(alloc, unquoted(given)) {
        Ok(set) => joined(alloc, set.numbers()),
        Err(fault) => told(alloc, fault),
    }
}

// How many numbers the range has, or its fault.
fn count(alloc: Global, given: &str) -> Result<String, LineFault> {
    match parse_set(alloc, unquoted(given)) {
        Ok(set) => Ok(format!(in alloc; "{}", set.numbers().len())?),
        Err(fault) => told(alloc, fault),
    }
}

// Where a number stands in the range, as `7 in 1-10`.
fn place(alloc: Global, given: &str) -> Result<String, LineFault> {
    let Some((number, range)) = given.split_once(" in ") else {
        return Err(LineFault::Malformed);
    };
    let Ok(number) = number.parse::<i32>() else {
        return Err(LineFault::Malformed);
    };
    match parse_set(alloc, unquoted(range)) {
        Ok(set) => place_in(alloc, &set, number),
        Err(fault) => told(alloc, fault),
    }
}

// Where the number stands, by both calls that tell it.
fn place_in(alloc: Global, set: &FrameSet, number: i32) -> Result<String, LineFault> {
    match (set.contains(number), set.position(number)) {
        (true, Some(place)) => Ok(format!(in alloc; "{place}")?),
        (false, None) => Ok(String::from_str(alloc, "nowhere")?),
        _ => Ok(String::from_str(alloc, "two answers")?),
    }
}

// What the range prints as, or its fault.
fn printed(alloc: Global, given: &str) -> Result<String, LineFault> {
    match parse_set(alloc, unquoted(given)) {
        Ok(set) => Ok(String::from_str(alloc, set.print(alloc)?.as_str())?),
        Err(fault) => told(alloc, fault),
    }
}

// The numbers with blanks between them.
fn joined(alloc: Global, numbers: &[i32]) -> Result<String, LineFault> {
    let mut text = String::new(alloc);
    for number in numbers {
        if !text.is_empty() {
            text.push(' ')?;
        }
        text.push_str(format!(in alloc; "{number}")?.as_str())?;
    }
    Ok(text)
}

// The fault in words, with its section.
fn told(alloc: Global, fault: RangeFault) -> Result<String, LineFault> {
    let (words, section) = match fault {
        RangeFault::Syntax { section } => ("syntax", section),
        RangeFault::OutOfRange { section } => ("out of range", section),
        RangeFault::ZeroStep { section } => ("zero step", section),
        RangeFault::WrongWay { section } => ("wrong way", section),
        RangeFault::Empty { section } => ("empty", section),
        RangeFault::TooMany { section } => ("too many", section),
        RangeFault::NoMemory => return Err(LineFault::NoMemory),
    };
    Ok(format!(in alloc; "{words} in section {section}")?)
}
