//! Laws of the definitions that the calls are proved against.

ghost use Rattle.std.specs.Prelude.{◌≡◌, ◌≤◌, ◌↔◌, ℕ, ℤ, List, Some, Ok, length, slice_get};
ghost use Rattle.std.specs.List.{list_any};
ghost use Rattle.frame_range.specs.declared.section.Section.{Section};
ghost use Rattle.frame_range.specs.Grammar.{Spells};
ghost use Rattle.frame_range.specs.Places.{has, place_of};
ghost use Rattle.frame_range.specs.Printed.{printed};
ghost use Rattle.frame_range.specs.Sections.{section_at, trimmed};
ghost use Rattle.frame_range.specs.Sets.{numbers_of, set_of};
ghost use Rattle.frame_range.specs.Steps.{section_numbers};

/// A text is read as a section exactly where it is one of the section's spellings: one of the five forms, with spaces
/// before and after it.
pub fn sections_are_read_as_spelled()
    ensures { (text : List ℕ) (s : Section) → (section_at (trimmed text) ≡ Some s) ↔ Spells text s }
{}

/// What a set prints as is read as the same sections again.
pub fn printed_sets_are_read_again()
    ensures { (text : List ℕ) (sections : List Section) → set_of text ≡ Ok sections → set_of (printed sections) ≡ Ok sections }
{}

/// What a set prints as is no longer than the text that it was read from.
#[tactic(auto, using(crate::proofs::LengthLemmas::printed_short))]
pub fn printed_sets_are_no_longer()
    ensures { (text : List ℕ) (sections : List Section) → set_of text ≡ Ok sections → length (printed sections) ≤ length text }
{}

/// The place of a number of a set is where it stands, and there alone.
pub fn numbers_stand_at_their_places()
    ensures { (sections : List Section) (i : ℕ) (z : ℤ) → (place_of z (numbers_of sections) ≡ Some i) ↔ (slice_get (numbers_of sections) i ≡ Some z) }
{}

/// A set has the numbers of its sections and no other.
pub fn numbers_are_those_of_the_sections()
    ensures { (sections : List Section) (z : ℤ) → has (numbers_of sections) z ≡ list_any (λ s. has (section_numbers s) z) sections }
{}
