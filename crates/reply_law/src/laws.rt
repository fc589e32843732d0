//! The laws: functions that do nothing, whose contracts are the laws.

ghost use Rattle.std.specs.Prelude.{◌<◌, ◌^◌, ℕ, List};
ghost use Rattle.farm_types.specs.Farm.{Farm};
ghost use Rattle.farm_types.specs.Kept.{IsKeptFarm};
ghost use Rattle.farm_lines.specs.FormedLines.{IsFormedReply};
ghost use Rattle.farm_lines.specs.Transcript.{Mark, answer_to};
ghost use Rattle.reply_law.specs.Lines.{IsReadBack};

use client_codec::replies_are_read_back;

/// What is replied to a line, whatever its bytes are, over a farm that the program keeps, and whatever the outside did
/// while it was answered, is within its forms and limits.
pub fn answers_are_formed()
    ensures { (f : Farm) (line : List ℕ) (moment : ℕ) (mark : Mark) → IsKeptFarm f → moment < 2 ^ 64 → IsFormedReply (answer_to f line moment mark).reply }
{}

/// What the scheduler writes as that reply is read as that reply.
pub fn answers_are_read_back()
    ensures { (f : Farm) (line : List ℕ) (moment : ℕ) (mark : Mark) → IsKeptFarm f → moment < 2 ^ 64 → IsReadBack (answer_to f line moment mark).reply }
{
    answers_are_formed();
    replies_are_read_back();
}
