//! What the text of a row asks.

use crate::attempts::attempt_of;
use case_text::{LineFault, number_of};
use farm_types::{Attempt, Exit};

/// What a row asks: an event, or to read what is there.
#[derive(Clone, Copy, Debug, PartialEq, Eq)]
pub enum Ask<'a> {
    /// A host sends its next line.
    Send {
        host: &'a str,
    },
    /// A line comes to the scheduler, whose store may refuse one of the line's commits.
    Deliver {
        line: u32,
        moment: Option<u64>,
        refused: Option<u32>,
    },
    /// A reply comes to its host.
    DeliverReply {
        reply: u32,
    },
    /// An attempt that a host runs ends.
    End {
        host: &'a str,
        attempt: Attempt,
        exit: Exit,
    },
    /// A host begins a new life.
    NewLife {
        host: &'a str,
        nonce: u64,
    },
    /// The scheduler starts again.
    Restart {
        further: Option<u32>,
        moment: Option<u64>,
    },
    /// What the present life of a host has started.
    Started {
        host: &'a str,
    },
    /// The completions that were counted.
    Counted,
    /// The entries since the scheduler started last.
    Entries,
    /// What stands in a slot of the farm.
    Slot {
        slot: u32,
    },
    /// A line to the scheduler, or one to a host, as it was sent.
    Line {
        line: u32,
    },
    Reply {
        reply: u32,
    },
}

/// Whether a line is a row, by its first word.
pub fn is_row(line: &str) -> bool {
    let (word, _) = line.split_once(' ').unwrap_or((line, ""));
    match word {
        "send" | "deliver" | "end" | "new" | "restart" => true,
        "started" | "counted" | "entries" | "slot" | "line" | "reply" => true,
        _ => false,
    }
}

/// What a row asks.
pub fn ask_of(text: &str) -> Result<Ask<'_>, LineFault> {
    let (word, rest) = text.split_once(' ').unwrap_or((text, ""));
    match word {
        "send" => Ok(Ask::Send { host: rest }),
        "deliver" => deliver_of(rest),
        "end" => end_of(rest),
        "new" => new_life_of(rest),
        "restart" => restart_of(rest),
        _ => reading_of(word, rest),
    }
}

// What is to be read.
fn reading_of<'a>(word: &str, rest: &'a str) -> Result<Ask<'a>, LineFault> {
    match word {
        "started" => Ok(Ask::Started { host: rest }),
        "counted" => Ok(Ask::Counted),
        "entries" => Ok(Ask::Entries),
        "slot" => Ok(Ask::Slot {
            slot: number_of(rest)?,
        }),
        "line" => Ok(Ask::Line {
            line: number_of(rest)?,
        }),
        "reply" => Ok(Ask::Reply {
            reply: number_of(rest)?,
        }),
        _ => Err(LineFault::Malformed),
    }
}

// A line that comes, as `reply 3`, or `3 at 10 refusing commit 0`, of which only the number has to be there.
fn deliver_of(text: &str) -> Result<Ask<'_>, LineFault> {
    if let Some(reply) = text.strip_prefix("reply ") {
        return Ok(Ask::DeliverReply {
            reply: number_of(reply)?,
        });
    }
    let (text, refused) = parted(text, " refusing commit ");
    let (line, moment) = parted(text, " at ");
    Ok(Ask::Deliver {
        line: number_of(line)?,
        moment: long_if(moment)?,
        refused: number_if(refused)?,
    })
}

// An attempt that ends, as `h1 0/1 status 0 signal 9`; the signal may be left out where it is 0.
fn end_of(text: &str) -> Result<Ask<'_>, LineFault> {
    let (text, signal) = parted(text, " signal ");
    let Some((text, status)) = text.split_once(" status ") else {
        return Err(LineFault::Malformed);
    };
    let Some((host, attempt)) = text.split_once(' ') else {
        return Err(LineFault::Malformed);
    };
    Ok(Ask::End {
        host,
        attempt: attempt_of(attempt)?,
        exit: Exit {
            status: number_of(status)?,
            signal: number_if(signal)?.unwrap_or(0),
        },
    })
}

// A new life, as `life h1 nonce 8`.
fn new_life_of(text: &str) -> Result<Ask<'_>, LineFault> {
    let Some(text) = text.strip_prefix("life ") else {
        return Err(LineFault::Malformed);
    };
    let Some((host, nonce)) = text.split_once(" nonce ") else {
        return Err(LineFault::Malformed);
    };
    Ok(Ask::NewLife {
        host,
        nonce: long_of(nonce)?,
    })
}

// A start, as `further 0 at 20`, of which any may be left out.
fn restart_of(text: &str) -> Result<Ask<'_>, LineFault> {
    let (text, moment) = parted_at_first(text, "at ");
    let Some(further) = text.strip_prefix("further ") else {
        return start_of(text, long_if(moment)?);
    };
    Ok(Ask::Restart {
        further: Some(number_of(further.trim_end())?),
        moment: long_if(moment)?,
    })
}

// A start at the farm as it is.
fn start_of(text: &str, moment: Option<u64>) -> Result<Ask<'_>, LineFault> {
    if !text.is_empty() {
        return Err(LineFault::Malformed);
    }
    Ok(Ask::Restart {
        further: None,
        moment,
    })
}

// The text before a word, and the text behind it, where the word stands in it.
fn parted<'a>(text: &'a str, word: &str) -> (&'a str, Option<&'a str>) {
    match text.split_once(word) {
        None => (text, None),
        Some((text, rest)) => (text, Some(rest)),
    }
}

// The same, with nothing before the word where the text begins with it.
fn parted_at_first<'a>(text: &'a str, word: &str) -> (&'a str, Option<&'a str>) {
    match text.strip_prefix(word) {
        Some(rest) => ("", Some(rest)),
        None => parted(text, word),
    }
}

fn number_if(text: Option<&str>) -> Result<Option<u32>, LineFault> {
    match text {
        None => Ok(None),
        Some(text) => Ok(Some(number_of(text)?)),
    }
}

fn long_if(text: Option<&str>) -> Result<Option<u64>, LineFault> {
    match text {
        None => Ok(None),
        Some(text) => Ok(Some(long_of(text)?)),
    }
}

/// A number of up to 64 bits.
pub fn long_of(text: &str) -> Result<u64, LineFault> {
    text.parse::<u64>().map_err(|_| LineFault::Malformed)
}
