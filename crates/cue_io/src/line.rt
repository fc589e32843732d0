//! What a reader of lines answers.

use std::error::Error;
use std::fmt;

/// A line without its newline, a line that was passed over because it is longer than the limit, or the end.
#[derive(Clone, Copy, Debug, PartialEq, Eq)]
pub enum Line<'a> {
    Bytes(&'a [u8]),
    TooLong,
    End,
}

/// Why there is no line: the source failed, or the reader has taken all bytes that it may.
#[derive(Clone, Copy, Debug, PartialEq, Eq)]
pub enum LineFault {
    Read,
    Spent,
}

impl fmt::Display for LineFault {
    fn fmt<W: fmt::Write>(&self, f: &mut fmt::Formatter<W>) -> fmt::Result {
        match self {
            LineFault::Read => write!(f, "the input failed"),
            LineFault::Spent => write!(f, "the input is longer than a reader takes"),
        }
    }
}

impl Error for LineFault {}

/// What a reader found: a line that it shows, one that it passed over, or the end.
#[derive(Clone, Copy)]
pub(crate) enum Found {
    Bytes,
    TooLong,
    End,
}
