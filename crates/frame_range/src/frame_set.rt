//! A frame set: its sections and its numbers.

ghost use Rattle.std.specs.Prelude.{◌≡◌, ◌≤◌, ◌<◌, length, OnOk};
ghost use Rattle.frame_range.specs.declared.limits.TheConstants.{MOST_NUMBERS};
ghost use Rattle.frame_range.specs.ParseResults.{Gives};
ghost use Rattle.frame_range.specs.Sets.{numbers_of, IsFaultless, add_section, set_of};

use crate::checks::{goes_wrong_way, has_past, has_zero_step, is_empty};
use crate::fault::RangeFault;
use crate::listing::{ListFault, Listing};
use crate::pieces::cut_at_comma;
use crate::print::print_sections;
use crate::read::read_section;
use crate::section::Section;
use crate::steps::list_section;
use crate::text::Text;
use std::alloc::{AllocError, Global};
use std::marker::Model;

/// A frame set: sections, and their numbers joined, the later ones of repeated numbers removed. A clause sees it as the
/// list of its sections, none of which has a fault.
#[derive(Drop)]
pub struct FrameSet {
    sections: Vec<Section>,
    listing: Listing,
}

impl Model for FrameSet {
    ghost use Rattle.std.specs.Prelude.{◌≡◌, List};
    ghost use Rattle.frame_range.specs.declared.section.Section.{Section};
    ghost use Rattle.frame_range.specs.Sets.{numbers_of, IsSet};

    ghost Value = { List Section };

    ghost view = { λ a. a.sections.items };

    ghost invariant = { λ a. IsSet a.sections.items × (a.listing ≡ numbers_of a.sections.items) };
}

/// Adds the section of a text, with its numbers.
fn add_section(
    sections: &mut Vec<Section>,
    listing: &mut Listing,
    text: &[u8],
) -> Result<(), RangeFault>
    requires listed { listing.old ≡ numbers_of sections.old.items }
    requires few { length listing.old ≤ MOST_NUMBERS }
    requires faultless { IsFaultless sections.old.items }
    ensures gives { Gives (λ _. sections.new.items) result (add_section sections.old.items text.now) }
    ensures listed { OnOk result (listing.new ≡ numbers_of sections.new.items) }
    ensures few { OnOk result (length listing.new ≤ MOST_NUMBERS) }
    ensures faultless { OnOk result (IsFaultless sections.new.items) }
    ensures some { OnOk result (0 < length sections.new.items) }
{
    let place = sections.len() + 1;
    let Some(section) = read_section(text) else {
        return Err(RangeFault::Syntax { section: place });
    };
    if has_past(section) {
        return Err(RangeFault::OutOfRange { section: place });
    }
    if has_zero_step(section) {
        return Err(RangeFault::ZeroStep { section: place });
    }
    if goes_wrong_way(section) {
        return Err(RangeFault::WrongWay { section: place });
    }
    if is_empty(section) {
        return Err(RangeFault::Empty { section: place });
    }
    match list_section(listing, section) {
        Ok(()) => {
            sections.push(section)?;
            Ok(())
        }
        Err(ListFault::TooMany) => Err(RangeFault::TooMany { section: place }),
        Err(ListFault::NoMemory) => Err(RangeFault::NoMemory),
    }
}

/// The set that the text spells, or its first fault.
pub fn parse_set(alloc: Global, text: &str) -> Result<FrameSet, RangeFault>
    ensures { Gives (λ set. set) result (set_of text.now) }
{
    let mut sections = Vec::new(alloc);
    let mut listing = Listing::new(alloc);
    let mut rest = text.as_bytes();
    while let Some((piece, others)) = cut_at_comma(rest) {
        add_section(&mut sections, &mut listing, piece)?;
        rest = others;
    }
    add_section(&mut sections, &mut listing, rest)?;
    Ok(FrameSet { sections, listing })
}

impl FrameSet {
    ghost use Rattle.std.specs.Prelude.{◌≡◌, ◌≤◌, IfOk, length};
    ghost use Rattle.std.specs.List.{IsDistinct};
    ghost use Rattle.std.specs.Ordering.{int_eq};
    ghost use Rattle.frame_range.specs.Places.{place_of, has};
    ghost use Rattle.frame_range.specs.Printed.{printed};
    ghost use Rattle.frame_range.specs.Sets.{numbers_of, set_of};

    /// The distinct numbers, in order.
    pub fn numbers(&self) -> &[i32]
        ensures value { result.now ≡ numbers_of self.now }
        ensures distinct { IsDistinct int_eq result.now }
        ensures some { 0 < length result.now }
        ensures most { length result.now ≤ MOST_NUMBERS }
    {
        self.listing.numbers()
    }

    /// Whether the number is one of the set's.
    pub fn contains(&self, number: i32) -> bool
        ensures { result ≡ has (numbers_of self.now) number }
    {
        self.position(number).is_some()
    }

    /// Where the number stands among the set's numbers, counted from 0; None exactly where it isn't one of them.
    pub fn position(&self, number: i32) -> Option<usize>
        ensures { result ≡ place_of number (numbers_of self.now) }
    {
        self.listing.position(number)
    }

    /// The sections without spaces and leading zeros, joined by commas. Parsed again, it gives the same sections.
    pub fn print(&self, alloc: Global) -> Result<Text, AllocError>
        ensures text { IfOk result (λ text. text ≡ printed self.now) }
        ensures again { IfOk result (λ text. set_of text ≡ Ok self.now) }
    {
        let text = print_sections(alloc, self.sections.as_slice())?;
        Ok(Text::from_string(text))
    }
}
