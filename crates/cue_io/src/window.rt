//! The buffer of a reader of lines: a fixed capacity that the bytes pass through.
ghost use Rattle.std.specs.Prelude.{◌≡◌, ℕ, ◌+◌, ◌-◌, ◌<◌, ◌≤◌, List, [], ◌++◌, length, take, drop, IfOk, OnErr, MatchResult, slice_range, vec_len};
ghost use Rattle.fault_counts.specs.Counts.{HasRisen};
ghost use Rattle.cue_io.specs.Window.{Framed, Fills};

use crate::source::{Source, SourceFault};
use std::alloc::{AllocError, Global};
use std::marker::Model;

/// The line given last stands in `line_start..line_end`, and the bytes held in `start..end`.
#[derive(Drop)]
pub(crate) struct Window {
    buffer: Vec<u8>,
    line_start: usize,
    line_end: usize,
    start: usize,
    end: usize,
}

impl Model for Window {
    ghost use Rattle.std.specs.Prelude.{◌≤◌, vec_len, slice_range};
    ghost use Rattle.cue_io.specs.Window.{Framed};

    ghost Value = { Framed };

    ghost view = { λ w. record {
      size = vec_len w.buffer;
      line = slice_range w.buffer.items w.line_start w.line_end;
      held = slice_range w.buffer.items w.start w.end;
    } };

    ghost invariant = { λ w. (w.line_start ≤ w.line_end) × (w.line_end ≤ vec_len w.buffer)
        × (w.start ≤ w.end) × (w.end ≤ vec_len w.buffer) };
}

impl Window {
    pub fn make(alloc: Global, size: usize) -> Result<Window, AllocError>
        ensures { IfOk result (λ w. w ≡ record { size = size; line = []; held = [] }) }
    {
        let buffer = vec![in alloc; 0; size]?;
        Ok(Window {
            buffer,
            line_start: 0,
            line_end: 0,
            start: 0,
            end: 0,
        })
    }

    /// The bytes held.
    pub fn held(&self) -> &[u8]
        ensures { result.now ≡ self.now.held }
    {
        &self.buffer[self.start..self.end]
    }

    /// The line given last.
    pub fn line(&self) -> &[u8]
        ensures { result.now ≡ self.now.line }
    {
        &self.buffer[self.line_start..self.line_end]
    }

    /// Gives the bytes before the place `at` as the line, and lets go the byte there.
    pub fn give(&mut self, at: usize)
        requires { at < length self.old.held }
        ensures { self.new ≡ record self.old { line = take at self.old.held; held = drop (at + 1) self.old.held } }
    {
        self.line_start = self.start;
        self.line_end = self.start + at;
        self.start = self.start + at + 1;
    }

    /// Gives all that is held as the line.
    pub fn give_all(&mut self)
        ensures { self.new ≡ record self.old { line = self.old.held; held = [] } }
    {
        self.line_start = self.start;
        self.line_end = self.end;
        self.start = self.end;
    }

    /// Lets go all that is held.
    pub fn clear(&mut self)
        ensures { self.new ≡ record self.old { line = []; held = [] } }
    {
        self.line_start = 0;
        self.line_end = 0;
        self.start = 0;
        self.end = 0;
    }

    /// One read from the source, of at most `most` bytes: how many came. Where it fails, nothing did.
    pub fn fill<S: Source>(&mut self, source: &mut S, most: usize) -> Result<usize, SourceFault>
        requires capacity { length self.old.held < self.old.size }
        requires some { 0 < most }
        ensures ok { IfOk result (λ n. (fresh : List ℕ) × Fills (S.left source.old) (S.left source.new) n most fresh
            × (self.new ≡ record self.old { line = []; held = self.old.held ++ fresh })) }
        ensures err { OnErr result (self.new ≡ record self.old { line = [] }) }
        ensures brought { MatchResult result (λ n. S.last source.new ≡ n) (λ _. S.last source.new ≡ 0) }
        ensures kept { OnErr result (S.left source.new ≡ S.left source.old) }
        ensures cause { OnErr result (HasRisen (S.faults source.old) (S.faults source.new)) }
        ensures rises { S.faults source.old ≤ S.faults source.new }
    {
        let length = self.end - self.start;
        let start = with_capacity(&mut self.buffer, self.start, self.end);
        let end = start + length;
        self.line_start = 0;
        self.line_end = 0;
        self.start = start;
        self.end = end;
        let to = end + most.min(self.buffer.len() - end);
        let count = read_into(source, &mut self.buffer, end, to)?;
        self.end = end + count;
        Ok(count)
    }
}

/// Where the bytes held in `start..end` start once there is capacity behind them: they are moved to the front where they
/// reach the end of the buffer. Where none are held that is the front, so that lines which come one by one pass through
/// the same few bytes of the buffer.
fn with_capacity(buffer: &mut Vec<u8>, start: usize, end: usize) -> usize
    requires ordered { start ≤ end }
    requires within { end ≤ vec_len buffer.old }
    ensures len { vec_len buffer.new ≡ vec_len buffer.old }
    ensures held { slice_range buffer.new.items result (result + (end - start)) ≡ slice_range buffer.old.items start end }
    ensures capacity { end - start < vec_len buffer.old → result + (end - start) < vec_len buffer.old }
    ensures fits { result + (end - start) ≤ vec_len buffer.old }
{
    if start == end {
        return 0;
    }
    if end < buffer.len() {
        return start;
    }
    buffer.copy_within(start..end, 0);
    0
}

/// Reads into the places from `from` to `to` of a buffer, and leaves those before as they are.
fn read_into<S: Source>(
    source: &mut S,
    buffer: &mut Vec<u8>,
    from: usize,
    to: usize,
) -> Result<usize, SourceFault>
    requires some { from < to }
    requires within { to ≤ vec_len buffer.old }
    ensures len { vec_len buffer.new ≡ vec_len buffer.old }
    ensures before { take from buffer.new.items ≡ take from buffer.old.items }
    ensures ok { IfOk result (λ n. Fills (S.left source.old) (S.left source.new) n (to - from) (take n (drop from buffer.new.items))) }
    ensures brought { MatchResult result (λ n. S.last source.new ≡ n) (λ _. S.last source.new ≡ 0) }
    ensures kept { OnErr result (S.left source.new ≡ S.left source.old) }
    ensures cause { OnErr result (HasRisen (S.faults source.old) (S.faults source.new)) }
    ensures rises { S.faults source.old ≤ S.faults source.new }
{
    source.read(&mut buffer[from..to])
}
