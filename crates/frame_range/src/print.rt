//! The text of a section, and of several.

ghost use Rattle.std.specs.Prelude.{◌≡◌, ◌++◌, IfOk, OnOk};
ghost use Rattle.std.specs.String.{string_bytes};
ghost use Rattle.frame_range.specs.Printed.{printed, printed_rest, printed_section};

use crate::section::Section;
use std::alloc::{AllocError, Global};
use std::fmt::Write;

/// Writes the section at the end of the text, without spaces and leading zeros.
#[tactic(auto, unfolding(crate::specs::Printed::printed_section))]
fn push_section(text: &mut String, section: Section) -> Result<(), AllocError>
    ensures { OnOk result (string_bytes text.new ≡ string_bytes text.old ++ printed_section section) }
{
    match section {
        Section::Single { number } => write!(text, "{number}"),
        Section::Range { first, last } => write!(text, "{first}-{last}"),
        Section::Stepped { first, last, step } => write!(text, "{first}-{last}x{step}"),
        Section::Inverse { first, last, step } => write!(text, "{first}-{last}y{step}"),
        Section::Interleaved { first, last, step } => write!(text, "{first}-{last}:{step}"),
    }
}

/// Writes a comma and the section at the end of the text, for each of the sections.
fn push_others(text: &mut String, sections: &[Section]) -> Result<(), AllocError>
    ensures { OnOk result (string_bytes text.new ≡ string_bytes text.old ++ printed_rest sections.now) }
{
    for section in sections {
        text.push(',')?;
        push_section(text, *section)?;
    }
    Ok(())
}

/// The sections joined by commas.
pub fn print_sections(alloc: Global, sections: &[Section]) -> Result<String, AllocError>
    ensures { IfOk result (λ text. string_bytes text ≡ printed sections.now) }
{
    let mut text = String::new(alloc);
    if let [first, others @ ..] = sections {
        push_section(&mut text, *first)?;
        push_others(&mut text, others)?;
    }
    Ok(text)
}
