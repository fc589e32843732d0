//! Entries in the farm and in the keeper, before the words are changed.

ghost use Rattle.std.specs.Prelude.{◌≡◌, false, Err, IfOk};
ghost use Rattle.farm_types.specs.Kept.{IsKeptFarm};
ghost use Rattle.farm_types.specs.Step.{after};
ghost use Rattle.farm_keeper.specs.Keeping.{Continues};
ghost use Rattle.farm_core.specs.Change.{after_change};
ghost use Rattle.booking_rule.specs.declared.view.View.{View};
ghost use Rattle.farm_stands.specs.Turns.{Covers};
ghost use Rattle.recorder.specs.Recording.{HasSameRows, IsOfEntry};
ghost use Rattle.recording_turns.specs.Owing.{Resizes};
ghost use Rattle.booking_recorder.specs.Entries.{IsHeldBy, Records, TellsRecord};
ghost use Rattle.booking_recorder.specs.Faults.{is_held_fault, is_spent, is_store_fault};

use crate::refusal::RecordFault;
use farm_core::{Change, Farm};
use farm_keeper::Keeper;
use farm_stands::{Turn, turns_cover, turns_of};
use farm_types::{Entry, HostNo, Items};
use recorder::RecordedFarm;
use recording_turns::resized_in;
use std::alloc::{AllocError, Global};

/// The words that the change of an entry is about, with what the farm says of them before it.
pub(crate) fn turns_for(
    alloc: Global,
    farm: &Farm,
    entry: &Entry,
    change: &Change,
) -> Result<Items<Turn>, AllocError>
    requires { IsOfEntry farm.now entry.now change.now }
    ensures kept { IsKeptFarm farm.now }
    ensures covers { IfOk result (λ turns. Covers farm.now (after farm.now entry.now) turns) }
{
    let _ = entry;
    farm.kept();
    turns_cover();
    turns_of(alloc, farm, change.batch())
}

/// The host that the change of an entry gives another size, if any.
pub(crate) fn resized_by(farm: &Farm, entry: &Entry, change: &Change) -> Option<HostNo>
    requires { IsOfEntry farm.now entry.now change.now }
    ensures { Resizes farm.now (after farm.now entry.now) result }
{
    let _ = entry;
    resized_in(farm, change.batch())
}

/// The fault, for a change that isn't recorded.
pub(crate) fn unrecorded(_change: Change, fault: RecordFault) -> Result<(), RecordFault>
    ensures { result ≡ Err fault }
{
    Err(fault)
}

/// Records the entry's change in the keeper and in the farm, or in neither.
pub(crate) fn record_plain<K: Keeper>(
    alloc: Global,
    plain: &mut RecordedFarm<K>,
    entry: &Entry,
    change: Change,
) -> Result<(), RecordFault>
    requires { IsOfEntry plain.old.farm entry.now change }
    ensures farm { Records plain.old.farm (after_change plain.old.farm change) result plain.new.farm }
    ensures same { HasSameRows plain.old.farm (after plain.old.farm entry.now) → plain.new.keeper ≡ plain.old.keeper }
    ensures keeper { Continues K.tells K.faults plain.old.keeper plain.new.keeper (is_store_fault result) }
    ensures told { TellsRecord K.commits plain.old.farm entry.now result plain.old.keeper plain.new.keeper }
    ensures unspent { is_spent result ≡ false }
    ensures never_held { is_held_fault result ≡ false }
    ensures unheld { (v : View) → (w : View) → IsHeldBy plain.old.farm entry.now v result w }
{
    plain.record(alloc, entry, change)?;
    Ok(())
}
