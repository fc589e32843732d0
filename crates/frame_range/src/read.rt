//! Reading a section's text. A section whose numbers are out of range is read, with these numbers just past the range.

ghost use Rattle.std.specs.Prelude.{◌≡◌, ℕ, ◌==◌, ◌||◌};
ghost use Rattle.std.specs.Option.{option_map};
ghost use Rattle.std.specs.List.{position};
ghost use Rattle.frame_range.specs.Capped.{capped_section};
ghost use Rattle.frame_range.specs.Number.{number_at};
ghost use Rattle.frame_range.specs.Sections.{without_front, without_back, trimmed, is_dash, is_mark, marked, marked_of, range_at, section_at};

use crate::digits::read_number;
use crate::section::Section;

/// The text without the spaces at its front.
fn without_front(text: &[u8]) -> &[u8]
    ensures { result.now ≡ without_front text.now }
{
    let mut start = 0;
    while start < text.len() && text[start] == b' ' {
        start += 1;
    }
    &text[start..]
}

/// The text without the spaces at its back.
fn without_back(text: &[u8]) -> &[u8]
    ensures { result.now ≡ without_back text.now }
{
    let mut end = text.len();
    while end > 0 && text[end - 1] == b' ' {
        end -= 1;
    }
    &text[..end]
}

/// Where the first dash stands.
fn dash_at(text: &[u8]) -> Option<usize>
    ensures { result ≡ position is_dash text.now }
{
    text.iter().position(|byte| *byte == b'-')
}

/// Where the first mark of a step stands.
fn mark_at(text: &[u8]) -> Option<usize>
    ensures { result ≡ position is_mark text.now }
{
    text.iter()
        .position(|byte| *byte == b'x' || (*byte == b'y' || *byte == b':'))
}

/// The section of three numbers that the mark says.
fn marked(mark: u8, first: i32, last: i32, step: i32) -> Section
    ensures { result ≡ marked mark first last step }
{
    if mark == b'x' {
        Section::Stepped { first, last, step }
    } else if mark == b'y' {
        Section::Inverse { first, last, step }
    } else {
        Section::Interleaved { first, last, step }
    }
}

/// The section of a first and a last number, a mark and a step.
fn read_marked(mark: u8, first: &[u8], last: &[u8], step: &[u8]) -> Option<Section>
    ensures { result ≡ option_map capped_section (marked_of mark (number_at first.now) (number_at last.now) (number_at step.now)) }
{
    let first = read_number(first)?;
    let last = read_number(last)?;
    let step = read_number(step)?;
    Some(marked(mark, first, last, step))
}

/// The section with a dash, by what stands before and after it.
fn read_range(first: &[u8], rest: &[u8]) -> Option<Section>
    ensures { result ≡ option_map capped_section (range_at first.now rest.now) }
{
    match mark_at(rest) {
        None => {
            let first = read_number(first)?;
            let last = read_number(rest)?;
            Some(Section::Range { first, last })
        }
        Some(at) => read_marked(rest[at], first, &rest[..at], &rest[at + 1..]),
    }
}

/// The section that the text without its spaces spells, or None where it has none of the five forms.
pub fn read_section(text: &[u8]) -> Option<Section>
    ensures { result ≡ option_map capped_section (section_at (trimmed text.now)) }
{
    read_trimmed(without_back(without_front(text)))
}

/// The section that the text spells, which has no spaces.
#[tactic(auto, unfolding(crate::specs::Sections::section_at))]
fn read_trimmed(text: &[u8]) -> Option<Section>
    ensures { result ≡ option_map capped_section (section_at text.now) }
{
    if text.is_empty() {
        return None;
    }
    match dash_at(&text[1..]) {
        None => {
            let number = read_number(text)?;
            Some(Section::Single { number })
        }
        Some(at) => read_range(&text[..at + 1], &text[at + 2..]),
    }
}
