//! Lines from a source.
ghost use Rattle.std.specs.Prelude.{◌≡◌, ℕ, ◌+◌, ◌<◌, ◌≤◌, List, false, nat_eq, length, take, IfOk, IsErrOf, OnErr, MatchOption, MatchResult, [], ◌⊎◌};
ghost use Rattle.std.specs.Borrow.{sem};
ghost use Rattle.std.specs.Io.BufRead.{Rests};
ghost use Rattle.fault_counts.specs.Counts.{HasRisen};
ghost use Rattle.cue_io.specs.Lines.{has_newline};
ghost use Rattle.cue_io.specs.Reader.{Held, IsAhead, Moves, WasNeeded, given_by, new_reader};
ghost use Rattle.cue_io.specs.Steps.{IsSound, Fetches, after_last, after_line, found_at, found_last, passed_over, shown_as, IsFirstNewline};

use crate::limits::{BYTE_LIMIT, READ_CAPACITY};
use crate::line::{Found, Line, LineFault};
use crate::source::{Source, SourceFault};
use crate::window::Window;
use memchr::memchr;
use std::alloc::{AllocError, Global};
use std::marker::Model;

/// A reader of lines of at most `limit` bytes. It holds no more than a line and what one read brought.
#[derive(Drop)]
pub struct LineReader {
    window: Window,
    limit: usize,
    taken: u64,
    passing: bool,
    ended: bool,
}

impl Model for LineReader {
    ghost use Rattle.std.specs.Prelude.{◌≡◌, ◌+◌};
    ghost use Rattle.cue_io.specs.Reader.{Held};
    ghost use Rattle.cue_io.specs.Steps.{IsSound};
    ghost use Rattle.cue_io.specs.declared.limits.TheConstants.{READ_CAPACITY};

    ghost Value = { Held };

    ghost view = { λ r. record {
      limit = r.limit;
      taken = r.taken;
      passing = r.passing;
      ended = r.ended;
      bytes = r.window.held;
      line = r.window.line;
    } };

    ghost invariant = { λ r. (r.window.size ≡ r.limit + READ_CAPACITY) × IsSound r.taken r.passing r.ended r.window.held };
}

impl LineReader {
    /// Reserves all the memory that the reader ever uses.
    pub fn make(alloc: Global, limit: usize) -> Result<LineReader, AllocError>
        ensures { IfOk result (λ reader. reader ≡ new_reader limit) }
    {
        let Some(size) = limit.checked_add(READ_CAPACITY) else {
            return Err(AllocError);
        };
        Ok(LineReader {
            window: Window::make(alloc, size)?,
            limit,
            taken: 0,
            passing: false,
            ended: false,
        })
    }

    /// The bytes taken and neither given nor let go.
    fn held(&self) -> &[u8]
        ensures { result.now ≡ self.now.bytes }
    {
        self.window.held()
    }

    /// The line given last.
    fn line(&self) -> &[u8]
        ensures { result.now ≡ self.now.line }
    {
        self.window.line()
    }

    fn has_ended(&self) -> bool
        ensures ended { result ≡ self.now.ended }
        ensures sound { IsSound self.now.taken self.now.passing self.now.ended self.now.bytes }
    {
        self.ended
    }

    fn is_spent(&self) -> bool
        ensures { result ≡ nat_eq self.now.taken BYTE_LIMIT }
    {
        self.taken == BYTE_LIMIT
    }

    /// Gives the line up to the newline at the place `at`.
    fn give(&mut self, at: usize) -> Found
        requires { at < length self.old.bytes }
        ensures found { result ≡ found_at self.old at }
        ensures after { self.new ≡ after_line self.old at }
    {
        let is_long = self.passing || self.limit < at;
        self.window.give(at);
        self.passing = false;
        if is_long {
            Found::TooLong
        } else {
            Found::Bytes
        }
    }

    /// Gives what is held at the end of the source.
    fn finish(&mut self) -> Found
        requires { self.old.taken < BYTE_LIMIT }
        ensures found { result ≡ found_last self.old }
        ensures after { self.new ≡ after_last self.old }
    {
        let count = self.window.held().len();
        let is_long = self.passing || self.limit < count;
        self.window.give_all();
        self.passing = false;
        self.ended = true;
        if is_long {
            Found::TooLong
        } else if count == 0 {
            Found::End
        } else {
            Found::Bytes
        }
    }

    /// Lets go what is held of a line that is too long.
    fn pass_over(&mut self)
        requires { self.old.ended ≡ false }
        ensures { self.new ≡ passed_over self.old }
    {
        if self.passing || self.limit < self.window.held().len() {
            self.window.clear();
            self.passing = true;
        }
    }

    /// One read: how many bytes came.
    fn fetch<S: Source>(&mut self, source: &mut S) -> Result<usize, SourceFault>
        requires capacity { length self.old.bytes ≤ self.old.limit }
        requires going { self.old.ended ≡ false }
        requires unspent { self.old.taken < BYTE_LIMIT }
        ensures ok { IfOk result (λ n. (fresh : List ℕ) ×
            Fetches (S.left source.old) (S.left source.new) n fresh self.old self.new) }
        ensures err { OnErr result (self.new ≡ record self.old { line = [] }) }
        ensures brought { MatchResult result (λ n. S.last source.new ≡ n) (λ _. S.last source.new ≡ 0) }
        ensures kept { OnErr result (S.left source.new ≡ S.left source.old) }
        ensures cause { OnErr result (HasRisen (S.faults source.old) (S.faults source.new)) }
        ensures rises { S.faults source.old ≤ S.faults source.new }
    {
        let most = (BYTE_LIMIT - self.taken) as usize;
        let count = self.window.fill(source, most)?;
        self.taken += count as u64;
        Ok(count)
    }

    /// Moves on to what comes next, and says what that is.
    fn advance<S: Source>(&mut self, source: &mut S) -> Result<Found, LineFault>
        ensures moves { Moves (S.left source.old) (S.left source.new) self.old (shown_as result self.new.line) self.new }
        ensures unread { IsAhead self.old → source.new ≡ source.old }
        ensures needed { (source.new ≡ source.old)
            ⊎ WasNeeded self.old.bytes (S.left source.old) (S.left source.new) (S.last source.new) }
        ensures cause { IsErrOf result LineFault.Read → HasRisen (S.faults source.old) (S.faults source.new) }
        ensures rises { S.faults source.old ≤ S.faults source.new }
    {
        if self.has_ended() {
            return Ok(Found::End);
        }
        let mut searched = 0;
        'reads: loop {
            if let Some(at) = newline_from(self.held(), searched) {
                return Ok(self.give(at));
            }
            if self.is_spent() {
                return Err(LineFault::Spent);
            }
            self.pass_over();
            searched = self.held().len();
            match self.fetch(source) {
                Err(_) => return Err(LineFault::Read),
                Ok(0) => return Ok(self.finish()),
                Ok(_) => {}
            }
        }
    }
}

impl LineReader {
    ghost use Rattle.cue_io.specs.contracts.line_reader.LineReader.{the_row};

    /// The next line of the source, without its newline. A last line without one counts where it has a byte. A line that
    /// is longer than the limit is passed over to its newline, and is TooLong. At the end of the source, where nothing
    /// is left, the answer is End, and so is each later one.
    ///
    /// The source isn't read while a whole line is held, nor after its end: each read comes while all that was taken
    /// before it has no newline.
    ///
    /// Read comes only where the source's count of faults rose in this call, and loses nothing. Spent comes exactly
    /// where the reader has taken 1,099,511,627,776 bytes and no whole line of them is left to give.
    pub fn next<S: Source>(&mut self, source: &mut S) -> Result<Line<'_>, LineFault>
        ensures* moves { sem 𝓛 (Rests the_row self.entry (λ new.
            Moves (S.left source.old) (S.left source.new) self.old (given_by result) new)) }
        ensures unread { IsAhead self.old → source.new ≡ source.old }
        ensures needed { (source.new ≡ source.old)
            ⊎ WasNeeded self.old.bytes (S.left source.old) (S.left source.new) (S.last source.new) }
        ensures cause { IsErrOf result LineFault.Read → HasRisen (S.faults source.old) (S.faults source.new) }
        ensures rises { S.faults source.old ≤ S.faults source.new }
    {
        match self.advance(source)? {
            Found::Bytes => Ok(Line::Bytes(self.line())),
            Found::TooLong => Ok(Line::TooLong),
            Found::End => Ok(Line::End),
        }
    }
}

/// Where the first newline stands, of bytes that have none before the place `from`.
fn newline_from(bytes: &[u8], from: usize) -> Option<usize>
    requires within { from ≤ length bytes.now }
    requires searched { has_newline (take from bytes.now) ≡ false }
    ensures { MatchOption result (has_newline bytes.now ≡ false) (λ at.
        (at < length bytes.now) × IsFirstNewline bytes.now at) }
{
    match memchr(b'\n', &bytes[from..]) {
        Some(at) => Some(from + at),
        None => None,
    }
}
