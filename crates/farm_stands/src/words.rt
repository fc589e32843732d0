//! The two words of a slot.

ghost use Rattle.std.specs.Prelude.{◌≡◌, ◌↔◌, ◌<◌, IfSome, IsTrue, Some, option_copied, slice_get};
ghost use Rattle.farm_types.specs.Farm.{job_at, layer_at};
ghost use Rattle.farm_types.specs.Kept.{IsKeptFarm};
ghost use Rattle.frame_words.specs.Bits.{FitsAmount, FitsFrame};
ghost use Rattle.booking_rule.specs.Link.{cores_in, frame_stand, host_in, host_where, limit_code, limit_of, memory_in, phase_of, show_of, stand_at};
ghost use Rattle.booking_rule.specs.Recorded.{free_at};
ghost use Rattle.farm_stands.specs.Turns.{words_in};

use farm_books::Books;
use farm_core::Farm;
use farm_types::{
    Cores, Frame, FrameState, HostNo, Kb, LimitNo, ProcRow, ShowNo, Slot, SlotRow, Version,
};
use frame_words::{
    AmountWord, DEAD, DEPEND, EATEN, FREE, FrameWord, RUNNING, SETUP, SUCCEEDED, WAITING,
};

/// The two words of a slot.
#[derive(Clone, Copy, Debug)]
pub struct SlotWords {
    pub frame: FrameWord,
    pub amount: AmountWord,
}

impl SlotWords {
    /// Whether these are the words.
    #[inline(always)]
    pub fn are(&self, frame: &FrameWord, amount: &AmountWord) -> bool
        ensures { IsTrue result ↔ ((frame.now ≡ self.now.frame) × (amount.now ≡ self.now.amount)) }
    {
        *frame == self.frame && *amount == self.amount
    }
}

/// The words of the slot: FREE at version 0 past the last slot that was ever used, and no amounts where it has no frame.
#[inline(always)]
#[tactic(auto, unfolding(booking_rule::specs::Link::stand_at))]
pub fn slot_words(farm: &Farm, slot: Slot) -> SlotWords
    ensures words { result ≡ words_in (stand_at farm.now slot) }
    ensures fits { FitsFrame result.frame × FitsAmount result.amount }
{
    farm.kept();
    let books = farm.books();
    match row_at(books, slot) {
        None => free_words(Version(0)),
        Some(row) => words_of(books, row),
    }
}

// What stands in a slot, none past the last that was ever used.
#[inline(always)]
fn row_at(books: &Books, slot: Slot) -> Option<&SlotRow>
    ensures { option_copied result ≡ slice_get books.now.farm.slots slot }
{
    books.slots().get(slot.0 as usize)
}

// The words of a slot without a frame.
#[inline(always)]
fn free_words(version: Version) -> SlotWords
    ensures { result ≡ words_in (free_at version) }
{
    SlotWords {
        frame: FrameWord {
            phase: FREE,
            version,
            host: HostNo(0),
            cores: Cores(0),
        },
        amount: AmountWord {
            show: ShowNo(0),
            limit: 0,
            memory: Kb(0),
        },
    }
}

// The words of the slot with that row.
#[inline(always)]
fn words_of(books: &Books, row: &SlotRow) -> SlotWords
    requires kept { IsKeptFarm books.now.farm }
    ensures { result ≡ words_in (frame_stand books.now.farm row.now row.now.frame) }
{
    match &row.frame {
        None => free_words(row.version),
        Some(frame) => used_words(books, row, frame),
    }
}

// The words of the slot with that row and frame.
#[inline(always)]
fn used_words(books: &Books, row: &SlotRow, frame: &Frame) -> SlotWords
    requires kept { IsKeptFarm books.now.farm }
    ensures { result ≡ words_in (frame_stand books.now.farm row.now (Some frame.now)) }
{
    let LayerAmounts {
        cores,
        memory,
        limit,
    } = layer_amounts(books, frame);
    SlotWords {
        frame: FrameWord {
            phase: phase_of(frame.state),
            version: row.version,
            host: host_where(frame.state, &row.proc),
            cores,
        },
        amount: AmountWord {
            show: show_of(books, frame),
            limit,
            memory,
        },
    }
}

// The phase of a frame in that state.
#[inline(always)]
fn phase_of(state: FrameState) -> u8
    ensures { result ≡ phase_of state }
{
    match state {
        FrameState::Waiting => WAITING,
        FrameState::Depend => DEPEND,
        FrameState::Setup => SETUP,
        FrameState::Running => RUNNING,
        FrameState::Succeeded => SUCCEEDED,
        FrameState::Dead => DEAD,
        FrameState::Eaten => EATEN,
    }
}

// The host on which a frame in that state runs, 0 where it doesn't.
#[inline(always)]
fn host_where(state: FrameState, proc: &Option<ProcRow>) -> HostNo
    ensures { result ≡ host_where state proc.now }
{
    match state {
        FrameState::Running => host_in(proc),
        FrameState::Waiting
        | FrameState::Depend
        | FrameState::Setup
        | FrameState::Succeeded
        | FrameState::Dead
        | FrameState::Eaten => HostNo(0),
    }
}

// The host of an attempt.
#[inline(always)]
fn host_in(proc: &Option<ProcRow>) -> HostNo
    ensures { result ≡ host_in proc.now }
{
    match proc {
        None => HostNo(0),
        Some(proc) => proc.host,
    }
}

// The show of the frame's job.
#[inline(always)]
fn show_of(books: &Books, frame: &Frame) -> ShowNo
    ensures { result ≡ show_of (job_at books.now.farm frame.now.job) }
{
    match books.job(frame.job) {
        None => ShowNo(0),
        Some(job) => job.show,
    }
}

// What the frame's layer takes, and its limit, as the words say it: all 0 where there is no such layer.
struct LayerAmounts {
    cores: Cores,
    memory: Kb,
    limit: u8,
}

#[inline(always)]
fn layer_amounts(books: &Books, frame: &Frame) -> LayerAmounts
    requires kept { IsKeptFarm books.now.farm }
    ensures cores { result.cores ≡ cores_in (layer_at books.now.farm frame.now.job frame.now.layer) }
    ensures memory { result.memory ≡ memory_in (layer_at books.now.farm frame.now.job frame.now.layer) }
    ensures limit { result.limit ≡ limit_of (layer_at books.now.farm frame.now.job frame.now.layer) }
{
    match books.layer(frame.job, frame.layer) {
        None => LayerAmounts {
            cores: Cores(0),
            memory: Kb(0),
            limit: 0,
        },
        Some(layer) => LayerAmounts {
            cores: layer.cores,
            memory: layer.memory,
            limit: limit_code(layer.limit),
        },
    }
}

// A limit as the word says it: 0 for none, else its number plus 1.
#[inline(always)]
fn limit_code(limit: Option<LimitNo>) -> u8
    requires within { IfSome limit (λ n. n < 255) }
    ensures { result ≡ limit_code limit }
{
    match limit {
        None => 0,
        Some(limit) => limit.0 + 1,
    }
}
