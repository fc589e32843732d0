//! Whole runs of the tool's program, over a dialer, a file and an output in memory.

ghost use Rattle.std.specs.Prelude.{None};

use crate::moves::{Ends, bytes_of, shown, split_or, told_ends};
use crate::words::{words_and_spec, words_of};
use case_text::{LineFault, Moves};
use cue_io::{MemorySink, MemorySource};
use cue_tool::{SpecFault, SpecFiles, run_program};
use dialer::{MemoryDialer, MemoryLink};
use farm_types::{Items, Text};
use std::alloc::{AllocError, Global};

// Files that are all the same text, or can't be read, and the one that was read last.
#[derive(Drop)]
struct OneText {
    text: Option<Text>,
    opened: Option<Text>,
}

impl SpecFiles for OneText {
    ghost opened = { λ _. None };

    fn read(&mut self, alloc: Global, file: &str) -> Result<Text, SpecFault> {
        let Ok(opened) = Text::from_str(alloc, file) else {
            return Err(SpecFault::NoMemory);
        };
        self.opened = Some(opened);
        let Some(text) = &self.text else {
            return Err(SpecFault::Unreadable);
        };
        text.copy(alloc).map_err(|_| SpecFault::NoMemory)
    }
}

/// What the program answers, where it connects to, which file it reads, what it sends and prints, as `h 7412 submit f with {} then {"ok":true}/; reads in 4 failing
/// 2; sends in 3; prints in 5 capacity 9; no connection`: the words, the text of each file where one can be read, what comes over a connection, how that and the output
/// move bytes, and that there is none.
pub fn ran(alloc: Global, given: &str) -> Result<String, LineFault> {
    let (given, is_there) = match given.strip_suffix("; no connection") {
        Some(given) => (given, false),
        None => (given, true),
    };
    let (given, ends) = told_ends(alloc, given)?;
    let (asked, has) = split_or(given, " then ", "");
    let has = bytes_of(alloc, has)?;
    let (words, spec) = words_and_spec(asked);
    let words = words_of(alloc, words)?;
    let text = match spec {
        Some(spec) => Some(Text::from_str(alloc, spec)?),
        None => None,
    };
    let Ends {
        reads,
        sends,
        prints,
    } = ends;
    let link = if is_there {
        Some(link_of(has, reads, sends))
    } else {
        None
    };
    Ok(told(alloc, &words, text, link, &prints)?)
}

// How a connection moves bytes.
fn link_of(bytes: Vec<u8>, reads: Moves, sends: Moves) -> MemoryLink {
    MemoryLink {
        bytes,
        read_most: reads.most,
        failing_reads: reads.fails,
        capacity: sends.capacity,
        write_most: sends.most,
        failing_writes: sends.fails,
    }
}

// Runs the program, and tells what it answers and did.
fn told(
    alloc: Global,
    words: &Items<Text>,
    text: Option<Text>,
    link: Option<MemoryLink>,
    prints: &Moves,
) -> Result<String, AllocError> {
    let mut dialer = MemoryDialer::make(alloc, link);
    let mut files = OneText { text, opened: None };
    let mut out = prints.sink(alloc)?;
    let (status, ends) = run_program(alloc, words.as_slice(), &mut dialer, &mut files, &mut out);
    let code = status.code();
    let place = place_of(alloc, &dialer)?;
    let opened = file_of(alloc, &files)?;
    let sent = sent_over(alloc, &ends)?;
    let printed = shown(alloc, &out)?;
    format!(in alloc; "{code}, dialled {place}, opened {opened}, {sent}, printed {printed}")
}

// The place that was dialled, or how many were.
fn place_of(alloc: Global, dialer: &MemoryDialer) -> Result<String, AllocError> {
    match dialer.count() {
        0 => String::from_str(alloc, "nowhere"),
        1 => match dialer.place(0) {
            Some((address, port)) => format!(in alloc; "{address} {port}"),
            None => String::from_str(alloc, "nowhere"),
        },
        count => format!(in alloc; "{count} times"),
    }
}

// The file that was read.
fn file_of(alloc: Global, files: &OneText) -> Result<String, AllocError> {
    match &files.opened {
        Some(file) => String::from_str(alloc, file.as_str()),
        None => String::from_str(alloc, "nothing"),
    }
}

// What was sent over the connection, and how often a read and a write failed.
fn sent_over(
    alloc: Global,
    ends: &Option<(MemorySource, MemorySink)>,
) -> Result<String, AllocError> {
    match ends {
        Some((source, sink)) => {
            let sent = shown(alloc, sink)?;
            format!(in alloc; "sent {sent}, faults {} {}", source.faults(), sink.faults())
        }
        None => String::from_str(alloc, "no connection"),
    }
}
