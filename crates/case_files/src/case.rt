//! A case: what a session is run over, and what it must write and answer.

use crate::told_rows::ToldRows;
use case_text::{
    LineFault, Moves, Told, add_line, bytes_of, most_bytes_of, number_of, numbers_of, status_of,
    words_of,
};
use farm_types::{Items, Text};
use std::alloc::Global;

/// Whether each read, each write and each call of the keeper fails in turn.
#[derive(Clone, Copy, Debug, PartialEq, Eq)]
pub struct InTurn {
    pub reads: bool,
    pub writes: bool,
    pub keeper_calls: bool,
}

/// What a session is run over, and what it must write and answer.
#[derive(Drop)]
pub struct Case {
    pub words: Items<Text>,
    /// How the source gives bytes, and how the sink takes them.
    pub reads: Moves,
    pub writes: Moves,
    /// What the clock shows, in seconds: at opening, and then for each line.
    pub clock: Vec<u64>,
    pub requests: Vec<u8>,
    pub replies: Vec<u8>,
    pub status: u8,
    /// The store's rows before and after.
    pub rows: ToldRows,
    /// Which calls of the keeper fail, by their number from 1.
    pub failing_keeper_calls: Vec<u64>,
    /// What the session is run again for, once for each call, which fails then.
    pub in_turn: InTurn,
    /// The batch that the stop before the session left, of those that the session before was refused, by its number from 1.
    pub refused_batch: Option<u64>,
}

impl Case {
    /// A session without words over no input, that ends with status 0.
    pub fn new(alloc: Global) -> Case {
        Case {
            words: Items::new(alloc),
            reads: Moves::new(alloc),
            writes: Moves::new(alloc),
            clock: Vec::new(alloc),
            requests: Vec::new(alloc),
            replies: Vec::new(alloc),
            status: 0,
            rows: ToldRows::new(alloc),
            failing_keeper_calls: Vec::new(alloc),
            in_turn: InTurn {
                reads: false,
                writes: false,
                keeper_calls: false,
            },
            refused_batch: None,
        }
    }
}

// Takes which calls fail: those of the numbers, or each one, in a session of its own.
fn take_failing(
    alloc: Global,
    value: &str,
    fails: &mut Vec<u64>,
    in_turn: &mut bool,
) -> Result<(), LineFault> {
    if value == "each in turn" {
        *in_turn = true;
    } else {
        *fails = numbers_of(alloc, value)?;
    }
    Ok(())
}

impl Told for Case {
    fn is_pasted(&self, line: &str) -> bool {
        line.starts_with('>')
            || line.starts_with('<')
            || line.starts_with('+')
            || line.starts_with('-')
            || line.starts_with('=')
    }

    // Takes a request, a reply or a row.
    fn paste(&mut self, alloc: Global, line: &str) -> Result<(), LineFault> {
        if let Some(request) = line.strip_prefix('>') {
            add_line(alloc, &mut self.requests, request)
        } else if let Some(reply) = line.strip_prefix('<') {
            add_line(alloc, &mut self.replies, reply)
        } else {
            self.rows.take(alloc, line)
        }
    }

    // Sets what the case is run over, or the status that it ends with.
    fn set(&mut self, alloc: Global, name: &str, value: &str) -> Result<(), LineFault> {
        match name {
            "words" => self.words = words_of(alloc, value)?,
            "reads" => self.reads.most = most_bytes_of(value)?,
            "writes" => self.writes.most = most_bytes_of(value)?,
            "capacity" => self.writes.capacity = bytes_of(value)?,
            "failing reads" => {
                take_failing(alloc, value, &mut self.reads.fails, &mut self.in_turn.reads)?;
            }
            "failing writes" => {
                take_failing(
                    alloc,
                    value,
                    &mut self.writes.fails,
                    &mut self.in_turn.writes,
                )?;
            }
            "clock" => self.clock = numbers_of(alloc, value)?,
            "status" => self.status = status_of(value)?,
            "rows after" => self.rows.set_after(value)?,
            "failing keeper calls" => {
                let fails = &mut self.failing_keeper_calls;
                take_failing(alloc, value, fails, &mut self.in_turn.keeper_calls)?;
            }
            "with refused batch" => self.refused_batch = Some(u64::from(number_of(value)?)),
            _ => return Err(LineFault::Malformed),
        }
        Ok(())
    }
}
