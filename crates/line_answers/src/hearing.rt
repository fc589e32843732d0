//! Recording what a report tells, before its round.

ghost use Rattle.std.specs.Prelude.{◌≡◌, false, length};
ghost use Rattle.fault_counts.specs.Counts.{incremented_if};
ghost use Rattle.farm_keeper.specs.Keeping.{Continues};
ghost use Rattle.farm_types.specs.Formed.{IsFormed};
ghost use Rattle.farm_types.specs.Step.{after};
ghost use Rattle.dispatcher.specs.recorder.specs.Recording.{HasSameRows, IsOfEntry, IsUnstored};
ghost use Rattle.dispatcher.specs.recording_turns.specs.Resting.{split_in};
ghost use Rattle.dispatcher.specs.booking_recorder.specs.Entries.{IsHeldIn, IsSpentAt, TellsCommit};
ghost use Rattle.dispatcher.specs.booking_recorder.specs.Faults.{is_held_refusal, is_store_refusal};
ghost use Rattle.dispatcher.specs.booking_recorder.specs.Views.{Enters};
ghost use Rattle.line_answers.specs.Asking.{IsNoBooking};
ghost use Rattle.line_answers.specs.LineAnswers.{Hears};

use booking_table::Table;
use dispatcher::booking_recorder::{CommitRefusal, Naming, Recorder};
use dispatcher::farm_core::Change;
use farm_keeper::Keeper;
use farm_types::{Entry, HostNo};
use std::alloc::Global;

/// Records a report's entry, and says which host it is of. What it tells of the host and of its completions is in the farm then; its round isn't.
pub fn hear<K: Keeper, N: Naming>(
    alloc: Global,
    table: &Table,
    recorder: &mut Recorder<K, N>,
    entry: &Entry,
) -> Result<Option<HostNo>, CommitRefusal>
    requires table { table.now ≡ N.table }
    requires formed { IsFormed entry.now }
    requires unbooked { IsNoBooking entry.now.act }
    ensures farm { Hears recorder.old.farm entry.now result recorder.new.farm }
    ensures journal { Enters recorder.old.view entry.now result recorder.new.view }
    ensures spent { IsSpentAt (length recorder.old.view.journal) result }
    ensures held { IsHeldIn recorder.old.farm entry.now recorder.old.view result recorder.new.view }
    ensures alone { split_in recorder.old.view.desk ≡ 0 → is_held_refusal result ≡ false }
    ensures same { IsUnstored recorder.old.farm entry.now → recorder.new.keeper ≡ recorder.old.keeper }
    ensures keeper { Continues K.tells K.faults recorder.old.keeper recorder.new.keeper (is_store_refusal result) }
    ensures told { TellsCommit K.commits recorder.old.farm entry.now result recorder.old.keeper recorder.new.keeper }
    ensures faults { recorder.new.faults ≡ incremented_if (is_store_refusal result) recorder.old.faults }
{
    let change = recorder.prepare(alloc, entry)?;
    hear_change(alloc, table, recorder, entry, change)
}

// Records the change that a report's entry makes, and says which host it is of.
fn hear_change<K: Keeper, N: Naming>(
    alloc: Global,
    table: &Table,
    recorder: &mut Recorder<K, N>,
    entry: &Entry,
    change: Change,
) -> Result<Option<HostNo>, CommitRefusal>
    requires table { table.now ≡ N.table }
    requires of_entry { IsOfEntry recorder.old.farm entry.now change }
    requires unbooked { IsNoBooking entry.now.act }
    ensures farm { Hears recorder.old.farm entry.now result recorder.new.farm }
    ensures journal { Enters recorder.old.view entry.now result recorder.new.view }
    ensures spent { IsSpentAt (length recorder.old.view.journal) result }
    ensures held { IsHeldIn recorder.old.farm entry.now recorder.old.view result recorder.new.view }
    ensures alone { split_in recorder.old.view.desk ≡ 0 → is_held_refusal result ≡ false }
    ensures same { HasSameRows recorder.old.farm (after recorder.old.farm entry.now) → recorder.new.keeper ≡ recorder.old.keeper }
    ensures keeper { Continues K.tells K.faults recorder.old.keeper recorder.new.keeper (is_store_refusal result) }
    ensures told { TellsCommit K.commits recorder.old.farm entry.now result recorder.old.keeper recorder.new.keeper }
    ensures faults { recorder.new.faults ≡ incremented_if (is_store_refusal result) recorder.old.faults }
{
    let host = change.heard();
    recorder.record(alloc, table, entry, change)?;
    Ok(host)
}
