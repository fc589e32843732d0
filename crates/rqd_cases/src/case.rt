//! A case: what a life of the daemon is run over, and what it must send, do and answer.

use crate::attempts::exits_of;
use case_text::{
    LineFault, Moves, Told, add_line, bytes_of, most_bytes_of, numbers_of, status_of, words_of,
};
use farm_types::{Attempt, Exit, Items, Text};
use std::alloc::Global;

/// What a life is run over, and what it must send, do and answer.
#[derive(Drop)]
pub struct Case {
    pub words: Items<Text>,
    /// Whether the words are those of the whole program, which connects first, and whether somebody listens then.
    pub connects: bool,
    pub is_reached: bool,
    /// How the source gives bytes, and how the sink takes them.
    pub reads: Moves,
    pub writes: Moves,
    /// How attempts end, once they are started. Others run on.
    pub exits: Vec<(Attempt, Exit)>,
    /// Which calls of the spawner fail, by their number from 1.
    pub failing_calls: Vec<u64>,
    pub replies: Vec<u8>,
    /// The lines that it sends.
    pub requests: Vec<u8>,
    /// The calls of its spawner, with their answers.
    pub calls: Vec<u8>,
    /// The places that it connects to.
    pub places: Vec<u8>,
    pub status: u8,
}

impl Case {
    /// A life without words over no replies, that ends with status 0.
    pub fn new(alloc: Global) -> Case {
        Case {
            words: Items::new(alloc),
            connects: false,
            is_reached: true,
            reads: Moves::new(alloc),
            writes: Moves::new(alloc),
            exits: Vec::new(alloc),
            failing_calls: Vec::new(alloc),
            replies: Vec::new(alloc),
            requests: Vec::new(alloc),
            calls: Vec::new(alloc),
            places: Vec::new(alloc),
            status: 0,
        }
    }
}

impl Told for Case {
    fn is_pasted(&self, line: &str) -> bool {
        line.starts_with('>')
            || line.starts_with('<')
            || line.starts_with('*')
            || line.starts_with('@')
    }

    // Takes a request, a reply, a call of the spawner or a place.
    fn paste(&mut self, alloc: Global, line: &str) -> Result<(), LineFault> {
        if let Some(request) = line.strip_prefix('>') {
            add_line(alloc, &mut self.requests, request)
        } else if let Some(reply) = line.strip_prefix('<') {
            add_line(alloc, &mut self.replies, reply)
        } else if let Some(call) = line.strip_prefix('*') {
            add_line(alloc, &mut self.calls, call)
        } else if let Some(place) = line.strip_prefix('@') {
            add_line(alloc, &mut self.places, place)
        } else {
            Err(LineFault::Malformed)
        }
    }

    // Sets what the life is run over, or the status that it ends with.
    fn set(&mut self, alloc: Global, name: &str, value: &str) -> Result<(), LineFault> {
        match name {
            "words" => self.words = words_of(alloc, value)?,
            "program" => {
                self.words = words_of(alloc, value)?;
                self.connects = true;
            }
            "listener" => self.is_reached = value != "none",
            "reads" => self.reads.most = most_bytes_of(value)?,
            "writes" => self.writes.most = most_bytes_of(value)?,
            "capacity" => self.writes.capacity = bytes_of(value)?,
            "failing reads" => self.reads.fails = numbers_of(alloc, value)?,
            "failing writes" => self.writes.fails = numbers_of(alloc, value)?,
            "exits" => self.exits = exits_of(alloc, value)?,
            "failing spawner calls" => self.failing_calls = numbers_of(alloc, value)?,
            "status" => self.status = status_of(value)?,
            _ => return Err(LineFault::Malformed),
        }
        Ok(())
    }
}
