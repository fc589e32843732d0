//! Listing the numbers of one section. No section lists more than the set may have and a few times as many repeats:
//! the first number too many ends it.

ghost use Rattle.std.specs.Prelude.{◌≡◌, ◌+◌, ◌*◌, ◌/◌, ◌≤◌, ◌<◌, false, unsigned_abs, length};
ghost use Rattle.frame_range.specs.declared.limits.TheConstants.{GREATEST, MOST_NUMBERS};
ghost use Rattle.frame_range.specs.Away.{away, stride, others_from, halves_from};
ghost use Rattle.frame_range.specs.Checks.{has_past, has_zero_step};
ghost use Rattle.frame_range.specs.Listing.{Lists};
ghost use Rattle.frame_range.specs.Steps.{steps_from, section_numbers};

use crate::listing::{ListFault, Listing};
use crate::section::Section;

/// The number that is `offset` up or down from the first.
fn number_away(first: i32, up: bool, offset: u32) -> i32
    requires first { unsigned_abs first ≤ GREATEST }
    requires offset { offset ≤ 2 * GREATEST }
    ensures { result ≡ away first up offset }
{
    if up {
        first + offset as i32
    } else {
        first - offset as i32
    }
}

/// Lists the first number and each one a step of `size` further, up to `span` away.
fn list_steps(
    listing: &mut Listing,
    first: i32,
    up: bool,
    span: u32,
    size: u32,
) -> Result<(), ListFault>
    requires first { unsigned_abs first ≤ GREATEST }
    requires span { span ≤ 2 * GREATEST }
    requires size { 0 < size }
    ensures { Lists listing.old (steps_from first (stride up size) (span / size + 1)) result listing.new }
{
    let mut offset = 0;
    loop {
        listing.list(number_away(first, up, offset))?;
        if span - offset < size {
            return Ok(());
        }
        offset += size;
    }
}

/// Lists the numbers by ones, up to `span` away, but for the first and each one a step of `size` further.
fn list_others(
    listing: &mut Listing,
    first: i32,
    up: bool,
    span: u32,
    size: u32,
) -> Result<(), ListFault>
    requires first { unsigned_abs first ≤ GREATEST }
    requires span { span ≤ 2 * GREATEST }
    requires size { 0 < size }
    requires few { length listing.old ≤ MOST_NUMBERS }
    ensures { Lists listing.old (others_from first up size 0 (span + 1)) result listing.new }
{
    for offset in 0..span + 1 {
        if offset % size == 0 {
            continue;
        }
        listing.list(number_away(first, up, offset))?;
    }
    Ok(())
}

/// Lists the steps of `size`, half of it, a quarter and so on down to ones, each up to `span` away.
fn list_halves(
    listing: &mut Listing,
    first: i32,
    up: bool,
    span: u32,
    size: u32,
) -> Result<(), ListFault>
    requires first { unsigned_abs first ≤ GREATEST }
    requires span { span ≤ 2 * GREATEST }
    requires few { length listing.old ≤ MOST_NUMBERS }
    ensures { Lists listing.old (halves_from first up span size size) result listing.new }
{
    let mut step = size;
    while step > 0 {
        list_steps(listing, first, up, span, step)?;
        step /= 2;
    }
    Ok(())
}

/// Lists the numbers of the section.
pub fn list_section(listing: &mut Listing, section: Section) -> Result<(), ListFault>
    requires in_range { has_past section ≡ false }
    requires nonzero { has_zero_step section ≡ false }
    requires few { length listing.old ≤ MOST_NUMBERS }
    ensures { Lists listing.old (section_numbers section) result listing.new }
{
    match section {
        Section::Single { number } => listing.list(number),
        Section::Range { first, last } => {
            list_steps(listing, first, first <= last, first.abs_diff(last), 1)
        }
        Section::Stepped { first, last, step } => {
            list_steps(
                listing,
                first,
                step > 0,
                first.abs_diff(last),
                step.unsigned_abs(),
            )
        }
        Section::Inverse { first, last, step } => {
            list_others(
                listing,
                first,
                step > 0,
                first.abs_diff(last),
                step.unsigned_abs(),
            )
        }
        Section::Interleaved { first, last, step } => {
            list_halves(
                listing,
                first,
                step > 0,
                first.abs_diff(last),
                step.unsigned_abs(),
            )
        }
    }
}
