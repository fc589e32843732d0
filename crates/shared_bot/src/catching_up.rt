//! The first step under the lock, and the last one; a pass more.

ghost use Rattle.std.specs.Prelude.{ℕ, ◌≡◌, ◌<◌, List, [], MatchResult};
ghost use mathlib.Core.List.{IsPrefix};
ghost use Rattle.farm_types.specs.declared.entry.Entry.{Entry};
ghost use Rattle.farm_types.specs.Kept.{IsKeptFarm};
ghost use Rattle.farm_types.specs.Run.{IsLegal};
ghost use Rattle.booking_rule.specs.Kept.{farm_in};
ghost use Rattle.booking_rule.specs.Link.{farm_of};
ghost use Rattle.booking_rule.specs.Splits.{one_more};
ghost use Rattle.dispatcher.specs.booking_recorder.specs.Passing.{IsBehind};
ghost use Rattle.dispatcher.specs.booking_recorder.specs.Recording.{Recording, most_seats};
ghost use Rattle.dispatcher.specs.recording_turns.specs.Resting.{split_in};
ghost use Rattle.shared_bot.specs.Passes.{CaughtUp, IsFree, IsReadyFor, IsTaken, Works};

use crate::opened::Opened;
use booking_table::Table;
use dispatcher::booking_recorder::{Pass, PassRefusal, Recorder};
use farm_keeper::Keeper;

/// The first step under the lock: the recorder takes note of what the pass has seen, which is a beginning of what the recorder has.
pub fn notice<K: Keeper, N: Opened>(
    table: &Table,
    recorder: &mut Recorder<K, N>,
    pass: &mut Pass<N>,
)
    requires table { table.now ≡ N.table }
    requires taken { IsTaken recorder.old }
    requires opening { recorder.old.view.opening ≡ N.opening }
    ensures same { pass.new ≡ pass.old }
    ensures ready { IsReadyFor N.opening pass.new recorder.new }
    ensures farm { recorder.new.farm ≡ recorder.old.farm }
{
    recorder.notice(table, pass);
    recorder.rests();
}

/// The last step under the lock: the pass has then seen all that the recorder has, and takes what was recorded for it and how often the store failed.
pub fn catch_up<K: Keeper, N: Opened>(
    table: &Table,
    recorder: &mut Recorder<K, N>,
    pass: &mut Pass<N>,
)
    requires table { table.now ≡ N.table }
    requires opening { recorder.old.view.opening ≡ N.opening }
    ensures taken { IsTaken recorder.new }
    ensures opening { recorder.new.view.opening ≡ N.opening }
    ensures farm { recorder.new.farm ≡ recorder.old.farm }
    ensures keeper { recorder.new.keeper ≡ recorder.old.keeper }
    ensures journal { pass.new.view.journal ≡ recorder.old.view.journal }
    ensures caught { (before : Recording K) (mine : List Entry) (failures : ℕ) → IsBehind pass.old.view before.view → Works before recorder.old mine failures
        → CaughtUp pass.old pass.new mine failures }
    ensures legal { IsKeptFarm (farm_of N.opening) × IsLegal (farm_of N.opening) pass.new.view.journal }
    ensures leads { pass.old.view.opening ≡ N.opening → recorder.old.farm ≡ farm_in pass.new.view }
    ensures trail { IsPrefix recorder.old.view.trail pass.new.view.desk_trail }
{
    recorder.legal();
    recorder.rests();
    recorder.catch_up(table, pass);
}

/// A pass more, which has seen the whole journal; full exactly where 64 seats were split off.
pub fn open_pass<K: Keeper, N: Opened>(
    table: &Table,
    recorder: &mut Recorder<K, N>,
) -> Result<Pass<N>, PassRefusal>
    requires table { table.now ≡ N.table }
    requires opening { recorder.old.view.opening ≡ N.opening }
    ensures { MatchResult result
        (λ p. IsFree N.opening p.view × (p.view.receipts ≡ []) × (p.faults ≡ 0) × (split_in recorder.old.view.desk < most_seats)
        × (recorder.new ≡ record recorder.old { view = one_more recorder.old.view }))
        (λ _. (split_in recorder.old.view.desk ≡ most_seats) × (recorder.new ≡ recorder.old)) }
{
    recorder.legal();
    recorder.pass(table)
}
