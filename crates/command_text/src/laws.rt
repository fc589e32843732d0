//! What is true of every command. The public function here does nothing: its contract is the law.

ghost use Rattle.std.specs.Prelude.{◌≡◌, ℕ, ℤ, List, true};
ghost use Rattle.std.specs.Str.{is_utf8};
ghost use Rattle.farm_types.specs.Names.{expanded};

/// A command that is UTF-8 is so once its tokens are replaced, where the names of the job and of the layer are.
#[tactic(auto, using(crate::proofs::ExpandedTexts::expanded_text))]
pub fn expanded_commands_are_texts()
    ensures { (command job layer : List ℕ) (number : ℤ) → is_utf8 command ≡ true → is_utf8 job ≡ true → is_utf8 layer ≡ true
        → is_utf8 (expanded command job layer number) ≡ true }
{}
