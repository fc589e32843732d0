//! What is refused of the groups of a depend that comes.

ghost use Rattle.std.specs.Prelude.{◌≡◌, ◌==◌, find, IfOk, All};
ghost use Rattle.std.specs.List.{list_any};
ghost use Rattle.farm_types.specs.DependActs.{frame_name_at, runs_already, runs_at, waits_for_itself};
ghost use Rattle.depend_graph.specs.Graph.{IsGroup};
ghost use Rattle.farm_depends.specs.Coming.{self_refusal, started_refusal};
ghost use Rattle.farm_types.specs.Faults.{Refuses};

use crate::marks::{first_marked, mark, no_marks};
use crate::refused::{self_depend, started};
use command_text::frame_name;
use farm_books::Books;
use farm_types::{FarmFault, FrameState, Group, Slot, Text};
use job_book::Jobs;
use std::alloc::{AllocError, Global};

/// Refuses groups in which a frame waits for itself.
pub(crate) fn check_self(alloc: Global, books: &Books, groups: &[Group]) -> Result<(), FarmFault>
    requires { All IsGroup groups.now }
    ensures { Refuses (self_refusal books.now.farm groups.now) result }
{
    let found = waits_for_itself(alloc, groups)?;
    let Some(slot) = found else {
        return Ok(());
    };
    let frame = frame_name_at(alloc, books, slot)?;
    Err(self_depend(frame))
}

/// Refuses groups in which a frame that runs is to wait.
pub(crate) fn check_started(alloc: Global, books: &Books, groups: &[Group]) -> Result<(), FarmFault>
    ensures { Refuses (started_refusal books.now.farm groups.now) result }
{
    let Some(slot) = runs_already(books.jobs(), groups) else {
        return Ok(());
    };
    let frame = frame_name_at(alloc, books, slot)?;
    Err(started(frame))
}

/// The first waiting frame that is among the targets of its own group.
pub(crate) fn waits_for_itself(alloc: Global, groups: &[Group]) -> Result<Option<Slot>, AllocError>
    requires { All IsGroup groups.now }
    ensures { IfOk result (λ found. found ≡ waits_for_itself groups.now) }
{
    for group in groups {
        let found = own_waiter(alloc, group)?;
        if found.is_some() {
            return Ok(found);
        }
    }
    Ok(None)
}

// The first waiting frame of a group that is among its targets. Of more than one of each the targets are marked first.
fn own_waiter(alloc: Global, group: &Group) -> Result<Option<Slot>, AllocError>
    requires { IsGroup group.now }
    ensures { IfOk result (λ found. found ≡ find (λ w. list_any (λ t. t == w) group.now.targets) group.now.waiters) }
{
    let waiters = group.waiters.as_slice();
    let targets = group.targets.as_slice();
    if waiters.len() < 2 || targets.len() < 2 {
        return Ok(first_among(waiters, targets));
    }
    let mut marks = no_marks(alloc)?;
    mark(&mut marks, targets);
    Ok(first_marked(marks.as_slice(), waiters))
}

// The first of the waiters that is among the targets.
fn first_among(waiters: &[Slot], targets: &[Slot]) -> Option<Slot>
    ensures { result ≡ find (λ w. list_any (λ t. t == w) targets.now) waiters.now }
{
    for waiter in waiters {
        if is_among(targets, *waiter) {
            return Some(*waiter);
        }
    }
    None
}

// Whether the slot is among these.
fn is_among(slots: &[Slot], slot: Slot) -> bool
    ensures { result ≡ list_any (λ t. t == slot) slots.now }
{
    slots.iter().any(|other| *other == slot)
}

// The first waiting frame that runs.
fn runs_already(jobs: &Jobs, groups: &[Group]) -> Option<Slot>
    ensures { result ≡ runs_already jobs.now.slots groups.now }
{
    for group in groups {
        let found = first_running(jobs, group.waiters.as_slice());
        if found.is_some() {
            return found;
        }
    }
    None
}

// The first of the slots whose frame runs.
fn first_running(jobs: &Jobs, slots: &[Slot]) -> Option<Slot>
    ensures { result ≡ find (runs_at jobs.now.slots) slots.now }
{
    for slot in slots {
        if runs_at(jobs, *slot) {
            return Some(*slot);
        }
    }
    None
}

// Whether the slot's frame runs.
fn runs_at(jobs: &Jobs, slot: Slot) -> bool
    ensures { result ≡ runs_at jobs.now.slots slot }
{
    let Some(row) = jobs.row(slot) else {
        return false;
    };
    let Some(frame) = &row.frame else {
        return false;
    };
    matches!(frame.state, FrameState::Running)
}

// The name of the frame in a slot.
fn frame_name_at(alloc: Global, books: &Books, slot: Slot) -> Result<Text, AllocError>
    ensures { IfOk result (λ name. name ≡ frame_name_at books.now.farm slot) }
{
    let Some(row) = books.slot(slot) else {
        return Text::from_str(alloc, "");
    };
    let Some(frame) = &row.frame else {
        return Text::from_str(alloc, "");
    };
    let Some(layer) = books.layer(frame.job, frame.layer) else {
        return frame_name(alloc, frame.number, "");
    };
    frame_name(alloc, frame.number, layer.name.as_str())
}
