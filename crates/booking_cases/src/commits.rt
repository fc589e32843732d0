//! Lines that are committed, and claims that are confirmed.

ghost use Rattle.std.specs.Prelude.{◌≡◌};
ghost use Rattle.recorder_start.specs.Asking.{MayCommit};

use crate::answers::{Why, refusal_text};
use crate::dispatcher::Dispatcher;
use crate::held::{claim_of, held_claim};
use crate::said::Said;
use booking_recorder::{Naming, Recorder};
use booking_table::Table;
use farm_keeper::MemoryKeeper;
use farm_types::Entry;
use json::Scratch;
use recorder_start::entry_of;
use std::alloc::{AllocError, Global};

/// Commits the entry that a line asks for at a moment (seconds), and says `ok` or why it isn't recorded.
pub(crate) fn commit_line<N: Naming>(
    alloc: Global,
    table: &Table,
    recorder: &mut Recorder<MemoryKeeper, N>,
    line: &str,
    moment: u64,
) -> Result<String, AllocError>
    requires table { table.now ≡ N.table }
{
    let mut scratch = Scratch::new(alloc);
    match entry_of(alloc, line.as_bytes(), &mut scratch, moment)? {
        Some(entry) => {
            let answer = commit_entry(alloc, table, recorder, &entry);
            drop(entry);
            answer
        }
        None => String::from_str(alloc, "no entry"),
    }
}

/// Commits an entry.
pub(crate) fn commit_entry<N: Naming>(
    alloc: Global,
    table: &Table,
    recorder: &mut Recorder<MemoryKeeper, N>,
    entry: &Entry,
) -> Result<String, AllocError>
    requires table { table.now ≡ N.table }
    requires may { MayCommit entry.now }
{
    match recorder.commit(alloc, table, entry) {
        Ok(_) => String::from_str(alloc, "ok"),
        Err(refusal) => {
            let text = refusal_text(alloc, &refusal);
            drop(refusal);
            text
        }
    }
}

/// Confirms what a dispatcher claimed at a moment (seconds), and says which attempt runs then, or why none does. The claim stays the
/// dispatcher's then.
pub(crate) fn confirm_claim<N: Naming>(
    alloc: Global,
    table: &Table,
    recorder: &mut Recorder<MemoryKeeper, N>,
    dispatcher: &mut Dispatcher<N>,
    moment: u64,
) -> Result<String, AllocError>
    requires table { table.now ≡ N.table }
{
    let Some(claim) = dispatcher.claim() else {
        return format!(in alloc; "{}", Said::NotNow);
    };
    match recorder.confirm(alloc, table, claim_of(&claim), moment) {
        Ok(row) => {
            dispatcher.let_go();
            format!(in alloc; "{}", Said::Booked { row })
        }
        Err((claim, why)) => {
            let _ = held_claim(claim);
            format!(in alloc; "{}", Why { why })
        }
    }
}
