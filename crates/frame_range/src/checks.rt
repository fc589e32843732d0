//! The faults of a section that its own numbers decide.

ghost use Rattle.std.specs.Prelude.{◌≡◌, false, ℤ};
ghost use Rattle.frame_range.specs.Checks.{any_past, has_past, has_zero_step, leads_away, goes_wrong_way};
ghost use Rattle.frame_range.specs.Number.{is_past};
ghost use Rattle.frame_range.specs.Sets.{is_nil};
ghost use Rattle.frame_range.specs.Steps.{section_numbers};

use crate::limits::GREATEST;
use crate::section::Section;

/// Whether the number is out of range.
fn is_past(number: i32) -> bool
    ensures { result ≡ is_past number }
{
    number.unsigned_abs() > GREATEST
}

/// Whether one of the three numbers is out of range.
fn any_past(first: i32, last: i32, step: i32) -> bool
    ensures { result ≡ any_past first last step }
{
    is_past(first) || is_past(last) || is_past(step)
}

/// Whether one of the section's numbers is out of range.
pub fn has_past(section: Section) -> bool
    ensures { result ≡ has_past section }
{
    match section {
        Section::Single { number } => is_past(number),
        Section::Range { first, last } => is_past(first) || is_past(last),
        Section::Stepped { first, last, step } => any_past(first, last, step),
        Section::Inverse { first, last, step } => any_past(first, last, step),
        Section::Interleaved { first, last, step } => any_past(first, last, step),
    }
}

/// Whether the section has a step that is 0.
pub fn has_zero_step(section: Section) -> bool
    ensures { result ≡ has_zero_step section }
{
    match section {
        Section::Single { .. } | Section::Range { .. } => false,
        Section::Stepped { step, .. } => step == 0,
        Section::Inverse { step, .. } => step == 0,
        Section::Interleaved { step, .. } => step == 0,
    }
}

/// Whether the step leads away from the last number.
fn leads_away(first: i32, last: i32, step: i32) -> bool
    ensures { result ≡ leads_away first last step }
{
    if 0 < step {
        last < first
    } else {
        first <= last
    }
}

/// Whether the section has a step that leads away from its last number.
pub fn goes_wrong_way(section: Section) -> bool
    ensures { result ≡ goes_wrong_way section }
{
    match section {
        Section::Single { .. } | Section::Range { .. } => false,
        Section::Stepped { first, last, step } => leads_away(first, last, step),
        Section::Inverse { first, last, step } => leads_away(first, last, step),
        Section::Interleaved { first, last, step } => leads_away(first, last, step),
    }
}

/// Whether the section has no number. Only an inverse step can leave none: a step of one leaves none, and a range of one
/// number none.
pub fn is_empty(section: Section) -> bool
    requires { has_zero_step section ≡ false }
    ensures { result ≡ is_nil (section_numbers section) }
{
    match section {
        Section::Single { .. } => false,
        Section::Range { .. } => false,
        Section::Stepped { .. } => false,
        Section::Inverse { first, last, step } => {
            step.unsigned_abs() == 1 || first.abs_diff(last) == 0
        }
        Section::Interleaved { .. } => false,
    }
}
