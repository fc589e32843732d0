//! The frame of a number among the slots of a layer.

ghost use Rattle.std.specs.Prelude.{◌≡◌, find, map, IfSome};
ghost use Rattle.std.specs.List.{IsDistinct};
ghost use Rattle.std.specs.Ordering.{int_eq};
ghost use Rattle.farm_places.specs.Ends.{number_at};
ghost use Rattle.farm_places.specs.Frames.{IsNumbered, has_number_at};

use crate::shapes::number_at;
use farm_types::Slot;
use job_book::Jobs;

/// The slot whose frame has the number, among slots of which no two frames have one number. The numbers of most layers go by one step, so that
/// the place of a number follows from the first two. Where it doesn't stand there, the slots are looked at in turn.
pub(crate) fn slot_of_number(jobs: &Jobs, slots: &[Slot], number: i32) -> Option<Slot>
    requires { IsDistinct int_eq (map (number_at jobs.now.slots) slots.now) }
    ensures { result ≡ find (has_number_at jobs.now.slots number) slots.now }
{
    match slot_in_step(jobs, slots, number) {
        Some(slot) => Some(slot),
        None => first_with_number(jobs, slots, number),
    }
}

// The slot whose frame has the number, where it stands at the place that the first two numbers tell.
fn slot_in_step(jobs: &Jobs, slots: &[Slot], number: i32) -> Option<Slot>
    ensures { IfSome result (IsNumbered jobs.now.slots slots.now number) }
{
    let first = *slots.get(0)?;
    let second = *slots.get(1)?;
    let place = place_in_step(number_at(jobs, first), number_at(jobs, second), number)?;
    let slot = *slots.get(place)?;
    if number_at(jobs, slot) != number {
        return None;
    }
    Some(slot)
}

// Where the number would stand if each were as far from the one before it as the second is from the first.
fn place_in_step(first: i32, second: i32, number: i32) -> Option<usize> {
    let step = second.checked_sub(first)?;
    let away = number.checked_sub(first)?;
    usize::try_from(away.checked_div(step)?).ok()
}

// The first of the slots whose frame has the number.
fn first_with_number(jobs: &Jobs, slots: &[Slot], number: i32) -> Option<Slot>
    ensures { result ≡ find (has_number_at jobs.now.slots number) slots.now }
{
    for slot in slots {
        if number_at(jobs, *slot) == number {
            return Some(*slot);
        }
    }
    None
}
