//! What becomes of a frame whose attempt completed.

ghost use Rattle.std.specs.Prelude.{◌≡◌};
ghost use Rattle.farm_types.specs.Farm.{job_at};
ghost use Rattle.farm_types.specs.Step.{ended_row, judged, verdict_for};

use farm_books::Books;
use farm_types::{Exit, Frame, FrameState, SlotRow, Verdict};
use retry_policy::verdict;

/// The slot without its attempt, its frame judged by the exit.
pub(crate) fn ended_row(books: &Books, exit: Exit, row: &SlotRow) -> SlotRow
    ensures { result ≡ ended_row books.now.farm exit row.now }
{
    let frame = match &row.frame {
        None => None,
        Some(frame) => Some(judged(frame, verdict_for(books, exit, frame))),
    };
    SlotRow {
        version: row.version,
        frame,
        proc: None,
    }
}

// The verdict by the job's greatest number of retries and whether it eats its failures.
fn verdict_for(books: &Books, exit: Exit, frame: &Frame) -> Verdict
    ensures { result ≡ verdict_for exit frame.now (job_at books.now.farm frame.now.job) }
{
    match books.job(frame.job) {
        None => verdict(exit, frame.retries, 0, false),
        Some(job) => verdict(exit, frame.retries, job.max_retries, job.auto_eat),
    }
}

// The frame as the verdict leaves it.
fn judged(frame: &Frame, verdict: Verdict) -> Frame
    ensures { result ≡ judged frame.now verdict }
{
    let mut judged = *frame;
    match verdict {
        Verdict::Succeeded => judged.state = FrameState::Succeeded,
        Verdict::Waiting { retries } => {
            judged.state = FrameState::Waiting;
            judged.retries = retries;
        }
        Verdict::Eaten => judged.state = FrameState::Eaten,
        Verdict::Dead => judged.state = FrameState::Dead,
    }
    judged
}
