//! The words of a slot become what the farm says.

ghost use Rattle.std.specs.Prelude.{◌≡◌, ℕ, ◌<◌, ◌==◌, true, false};
ghost use Rattle.frame_words.specs.Bits.{FitsFrame, FitsAmount, frame_of, frame_bits, amount_of, amount_bits};
ghost use Rattle.booking_rule.specs.Rule.{word_of, ShowsFrame};
ghost use Rattle.recording_core.specs.Machine.{stand_recorded};
ghost use Rattle.recording_core.specs.Records.{left_word, ended_word, turned_word, wrote_amount};
ghost use Rattle.recording_core.specs.Records.RecorderKind.{leaves, ends, turns, sets_amount};
ghost use Rattle.booking_table.specs.Seats.{view, IsSeatOf, IsSameSeat};
ghost use Rattle.recording_table.specs.Calls.{MayChangeSlot, changed_word};
ghost use Rattle.recording_table.specs.Steps.{IsOnRecorded, MayTake};

use crate::doing::Doing;
use crate::steps::swap;
use booking_table::{Seat, Table};
use farm_types::Slot;
use frame_words::{AmountWord, FrameWord, RUNNING, WAITING};

// where the words stand
const FRAMES: usize = 1;

const AMOUNTS: usize = 65_537;

/// The word of a waiting frame becomes this one. If a seat had claimed the frame, what it holds for it is the recorder's
/// seat's then. It tells the word that it found.
pub fn leave_slot(table: &Table, seat: &mut Seat, slot: Slot, word: FrameWord) -> FrameWord
    requires table { IsSeatOf table.now seat.old }
    requires within { (slot < 65536) × FitsFrame word }
    requires may { MayTake (view seat.old) (leaves slot (frame_bits word)) }
    ensures same { IsSameSeat seat.old seat.new }
    ensures left { (found : ℕ) × (result ≡ frame_of found) × (view seat.new ≡ left_word (view seat.old) slot (frame_bits word) found) }
    ensures was { ShowsFrame true false (stand_recorded (view seat.old) slot) result }
    ensures on { IsOnRecorded (view seat.old) result }
{
    let place = slot.0 as usize + FRAMES;
    let word = word.pack();
    let found = swap(table, seat, place, word, Doing::Leaves { slot, word });
    FrameWord::unpack(found)
}

/// The word of a running frame becomes this one. What it booked is the recorder's seat's then. It tells the word that it
/// found.
pub fn end_slot(table: &Table, seat: &mut Seat, slot: Slot, word: FrameWord) -> FrameWord
    requires table { IsSeatOf table.now seat.old }
    requires within { (slot < 65536) × FitsFrame word }
    requires may { MayTake (view seat.old) (ends slot (frame_bits word)) }
    ensures same { IsSameSeat seat.old seat.new }
    ensures ended { (found : ℕ) × (result ≡ frame_of found) × (view seat.new ≡ ended_word (view seat.old) slot (frame_bits word) found) }
    ensures was { result ≡ word_of (stand_recorded (view seat.old) slot) }
{
    let place = slot.0 as usize + FRAMES;
    let word = word.pack();
    let found = swap(table, seat, place, word, Doing::Ends { slot, word });
    FrameWord::unpack(found)
}

/// The word of any other frame, or of a free slot, becomes this one. It tells the word that it found.
pub fn turn_slot(table: &Table, seat: &mut Seat, slot: Slot, word: FrameWord) -> FrameWord
    requires table { IsSeatOf table.now seat.old }
    requires within { (slot < 65536) × FitsFrame word }
    requires may { MayTake (view seat.old) (turns slot (frame_bits word)) }
    ensures same { IsSameSeat seat.old seat.new }
    ensures turned { (found : ℕ) × (result ≡ frame_of found) × (view seat.new ≡ turned_word (view seat.old) slot (frame_bits word) found) }
    ensures was { result ≡ word_of (stand_recorded (view seat.old) slot) }
{
    let place = slot.0 as usize + FRAMES;
    let word = word.pack();
    let found = swap(table, seat, place, word, Doing::Turns { slot, word });
    FrameWord::unpack(found)
}

/// The word of a slot becomes this one, by the step for the phase that is recorded: that of a waiting frame, of a running one
/// or of any other. It tells the word that it found.
pub fn change_slot(
    table: &Table,
    seat: &mut Seat,
    slot: Slot,
    phase: u8,
    word: FrameWord,
) -> FrameWord
    requires table { IsSeatOf table.now seat.old }
    requires fits { FitsFrame word }
    requires phase { (stand_recorded (view seat.old) slot).phase ≡ phase }
    requires may { MayChangeSlot (view seat.old) slot (frame_bits word) }
    ensures same { IsSameSeat seat.old seat.new }
    ensures changed { (found : ℕ) × (result ≡ frame_of found) × (view seat.new ≡ changed_word phase (view seat.old) slot (frame_bits word) found) }
    ensures was { ShowsFrame (phase == 1) false (stand_recorded (view seat.old) slot) result }
    ensures on { phase ≡ 1 → IsOnRecorded (view seat.old) result }
{
    if phase == WAITING {
        return leave_slot(table, seat, slot, word);
    }
    if phase == RUNNING {
        return end_slot(table, seat, slot, word);
    }
    turn_slot(table, seat, slot, word)
}

/// Writes the amount word of a free slot, before a frame comes there. It tells the word that it found.
pub fn set_amount(table: &Table, seat: &mut Seat, slot: Slot, word: AmountWord) -> AmountWord
    requires table { IsSeatOf table.now seat.old }
    requires within { (slot < 65536) × FitsAmount word }
    requires may { MayTake (view seat.old) (sets_amount slot (amount_bits word)) }
    ensures same { IsSameSeat seat.old seat.new }
    ensures set { (found : ℕ) × (result ≡ amount_of found) × (view seat.new ≡ wrote_amount (view seat.old) slot (amount_bits word) found) }
{
    let place = slot.0 as usize + AMOUNTS;
    let word = word.pack();
    let found = swap(table, seat, place, word, Doing::SetsAmount { slot, word });
    AmountWord::unpack(found)
}
