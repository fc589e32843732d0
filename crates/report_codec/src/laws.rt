//! A law of the texts of replies. The public function here does nothing: its contract is the law.

ghost use Rattle.std.specs.Prelude.{◌≡◌, ◌==◌, ℕ, false};
ghost use Rattle.std.specs.List.{list_any};
ghost use Rattle.farm_lines.specs.declared.reply.Reply.{Reply};
ghost use Rattle.farm_lines.specs.Reply.{reply_text};

/// No reply's text has a newline, byte 10, within, so that each reply is one line.
#[tactic(auto, using(object_writer::proofs::Newlines::text_is_one_line))]
pub fn replies_are_single_lines()
    ensures { (r : Reply) → list_any (λ (b : ℕ). b == 10) (reply_text r) ≡ false }
{}
