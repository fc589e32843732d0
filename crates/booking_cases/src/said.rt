//! What a step on the words answers.

use booking_table::{BurstFull, Dropped, HostShort, LimitFull, Seen, Taken};
use farm_types::{HostState, LockState, ProcRow};
use frame_words::{
    DEAD, DEPEND, EATEN, FREE, FrameWord, HostWord, LimitWord, RUNNING, SETUP, SUCCEEDED, SubWord,
    WAITING,
};
use std::fmt;

/// What a step answers, printed as the answer that a case tells: words, and numbers behind their names.
#[derive(Clone, Copy, Debug, PartialEq, Eq)]
pub enum Said {
    /// It went.
    Done,
    /// The seat isn't there, or holds something else, or nothing suits.
    NotNow,
    /// Nothing of that name is there.
    Unknown,
    /// A seat was split off, for which so many frames suit; or there are 64 of them.
    Suits { count: usize },
    SeatsFull,
    Slot { seen: Seen },
    Host { word: HostWord },
    Sub { word: SubWord },
    Limit { word: LimitWord },
    BurstFull { full: BurstFull },
    LimitFull { full: LimitFull },
    Short { short: HostShort },
    Taken { taken: Taken },
    Dropped { dropped: Dropped },
    Booked { row: ProcRow },
    /// How many entries of the journal a pass has seen, and how many failures of the store it has taken.
    Passed { seen: u64, faults: u64 },
}

impl fmt::Display for Said {
    fn fmt<W: fmt::Write>(&self, f: &mut fmt::Formatter<W>) -> fmt::Result {
        match self {
            Said::Done => write!(f, "ok"),
            Said::NotNow => write!(f, "not now"),
            Said::Unknown => write!(f, "unknown"),
            Said::Suits { count } => write!(f, "suits {count}"),
            Said::SeatsFull => write!(f, "full"),
            Said::Slot { seen } => write_slot(f, seen),
            Said::Host { word } => write!(f, "cores {} memory {}", word.cores.0, word.memory.0),
            Said::Sub { word } => write!(f, "booked {} burst {}", word.booked.0, word.burst.0),
            Said::Limit { word } => write!(f, "running {} most {}", word.running, word.most),
            Said::BurstFull { full } => {
                write!(
                    f,
                    "burst_full booked {} burst {}",
                    full.booked.0, full.burst.0
                )
            }
            Said::LimitFull { full } => {
                write!(f, "limit_full running {} most {}", full.running, full.most)
            }
            Said::Short { short } => write_short(f, short),
            Said::Taken { taken } => write_found(f, "taken", taken.found),
            Said::Dropped { dropped } => write_dropped(f, dropped),
            Said::Booked { row } => write_booked(f, row),
            Said::Passed { seen, faults } => write!(f, "seen {seen} faults {faults}"),
        }
    }
}

// A slot's two words. One without a frame has a version alone.
fn write_slot<W: fmt::Write>(f: &mut fmt::Formatter<W>, seen: &Seen) -> fmt::Result {
    if seen.phase == FREE {
        return write!(f, "FREE version {}", seen.version.0);
    }
    write!(
        f,
        "{} version {} cores {} memory {}",
        phase_word(seen.phase),
        seen.version.0,
        seen.cores.0,
        seen.memory.0
    )?;
    match seen.limit {
        None => Ok(()),
        Some(limit) => write!(f, " limit {}", limit.0),
    }
}

// Why no room was taken.
fn write_short<W: fmt::Write>(f: &mut fmt::Formatter<W>, short: &HostShort) -> fmt::Result {
    match short {
        HostShort::NoRoom { cores, memory } => {
            write!(f, "no_room cores {} memory {}", cores.0, memory.0)
        }
        HostShort::Moved { .. } => write!(f, "moved"),
    }
}

// How a claim ended.
fn write_dropped<W: fmt::Write>(f: &mut fmt::Formatter<W>, dropped: &Dropped) -> fmt::Result {
    match dropped {
        Dropped::Back => write!(f, "back"),
        Dropped::Withdrawn { found } => write_found(f, "withdrawn", *found),
    }
}

// An attempt.
fn write_booked<W: fmt::Write>(f: &mut fmt::Formatter<W>, row: &ProcRow) -> fmt::Result {
    write!(
        f,
        "booked slot {} version {} cores {} memory {}",
        row.slot.0, row.version.0, row.cores.0, row.memory.0
    )
}

/// A frame word that was found, behind what that means.
pub fn write_found<W: fmt::Write>(
    f: &mut fmt::Formatter<W>,
    what: &str,
    found: u64,
) -> fmt::Result {
    let word = FrameWord::unpack(found);
    write!(
        f,
        "{what} {} version {}",
        phase_word(word.phase),
        word.version.0
    )
}

// The word of a phase.
fn phase_word(phase: u8) -> &'static str {
    match phase {
        FREE => "FREE",
        WAITING => "WAITING",
        DEPEND => "DEPEND",
        SETUP => "SETUP",
        RUNNING => "RUNNING",
        SUCCEEDED => "SUCCEEDED",
        DEAD => "DEAD",
        EATEN => "EATEN",
        _ => "no phase",
    }
}

/// The word of a host's state.
pub fn state_word(state: HostState) -> &'static str {
    match state {
        HostState::Up => "UP",
        HostState::Down => "DOWN",
    }
}

/// The word of a host's lock.
pub fn lock_word(lock: LockState) -> &'static str {
    match lock {
        LockState::Unlocked => "OPEN",
        LockState::Locked => "LOCKED",
        LockState::NimbyLocked => "NIMBY_LOCKED",
    }
}
