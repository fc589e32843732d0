//! How many frames of each job are in which state, as counted over slots that are given.

ghost use Rattle.std.specs.Prelude.{◌≡◌, ◌≤◌, ◌<◌, ◌==◌, ℕ, length, slice_get, Some, IfOk};
ghost use Rattle.std.specs.List.{position_or_len};
ghost use Rattle.farm_types.specs.Rising.{IsRising, job_key};
ghost use Rattle.farm_types.specs.declared.limits.TheConstants.{SLOT_LIMIT};
ghost use Rattle.job_entries.specs.declared.counts.Counts.{Counts};
ghost use Rattle.job_index.specs.declared.ready_jobs.TheConstants.{JOB_NUMBERS};
ghost use Rattle.job_book.specs.Inside.{counts_for};
ghost use Rattle.job_book.specs.Restored.{HasFew, counted_frame};

use farm_types::{JobNo, JobRow, SlotRow};
use job_entries::{Counts, all_waiting, counted_in};
use std::alloc::{AllocError, Global};

/// The counts of these jobs, in their order.
pub(crate) fn counts_in(
    alloc: Global,
    rows: &[JobRow],
    slots: &[SlotRow],
) -> Result<Vec<Counts>, AllocError>
    requires rise { IsRising job_key 0 rows.now JOB_NUMBERS }
    requires slot_count { length slots.now ≤ SLOT_LIMIT }
    ensures { IfOk result (λ counts. counts.items ≡ counts_for rows.now slots.now) }
{
    let mut counts = vec![in alloc; all_waiting(0); rows.len()]?;
    for slot in slots {
        count_frame(&mut counts, rows, slot);
    }
    Ok(counts)
}

/// The counts at a place.
pub(crate) fn counts_at(counts: &[Counts], at: usize) -> &Counts
    requires { at < length counts.now }
    ensures { slice_get counts.now at ≡ Some result.now }
{
    &counts[at]
}

// The slot's frame is counted for its job, where it has one.
fn count_frame(counts: &mut Vec<Counts>, rows: &[JobRow], slot: &SlotRow)
    requires rise { IsRising job_key 0 rows.now JOB_NUMBERS }
    requires few { (n : ℕ) (c : Counts) → slice_get counts.old.items n ≡ Some c → HasFew c }
    ensures { counts.new.items ≡ counted_frame rows.now slot.now.frame counts.old.items }
{
    let Some(frame) = &slot.frame else {
        return;
    };
    let at = job_place(rows, frame.job);
    if at < counts.len() {
        counts[at] = counted_in(counts[at], frame.state);
    }
}

// The place of a job among these, and how many there are where it isn't one of them.
fn job_place(rows: &[JobRow], job: JobNo) -> usize
    requires { IsRising job_key 0 rows.now JOB_NUMBERS }
    ensures { result ≡ position_or_len (λ j. j.job == job) rows.now }
{
    number_place(rows, job.0)
}

// The place of a number among those of these jobs.
fn number_place(rows: &[JobRow], job: u32) -> usize
    requires { IsRising job_key 0 rows.now JOB_NUMBERS }
    ensures { result ≡ position_or_len (λ j. j.job == job) rows.now }
{
    rows.binary_search_by_key(&job, |row| row.job.0)
        .unwrap_or(rows.len())
}
