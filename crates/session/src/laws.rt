//! The laws of stops and of faults of the store. The functions do nothing: their contracts are the laws.

ghost use Rattle.std.specs.Prelude.{◌≡◌, ◌<◌, ◌^◌, ⊤, true, ℕ, List};
ghost use Rattle.std.specs.List.{All};
ghost use Rattle.farm_keeper.specs.declared.row.Row.{Row};
ghost use Rattle.farm_keeper.specs.Keeping.{MayRemain};
ghost use Rattle.farm_keeper.specs.Memory.{Commits, Kept};
ghost use Rattle.farm_keeper.specs.Rows.{Lists, Rows};
ghost use Rattle.farm_lines.specs.Transcript.{Exchange, farm_after, is_store_mark};
ghost use Rattle.farm_types.specs.Farm.{Farm, empty_farm};
ghost use Rattle.farm_types.specs.Kept.{IsKeptFarm};
ghost use Rattle.farm_types.specs.Run.{IsLegal};
ghost use Rattle.farm_load.specs.recorder.specs.Recording.{MayBe};
ghost use Rattle.farm_rows.specs.Rows.{HasRowsIn};
ghost use Rattle.recovery.specs.Recovered.{recovered};
ghost use Rattle.session.specs.Opening.{AreOf};
ghost use Rattle.session.specs.Sessions.{GoesOnAt};
ghost use Rattle.session.specs.Stops.{IsOpenedAgain, MayBeOld, has_just_failed};
ghost use Rattle.session.specs.Words.{WordForm, opened_farm, opening_entries};

use depend_law::legal_runs_keep_farms;
use farm_load::line_answers::sessions_are_legal;
use recovery::{farms_are_recovered, rows_recovered_are_the_farms};
use store_law::{rows_fit, stores_are_listed_in_order};

/// The rows that a stop may leave of a farm that was recorded are, opened again, that farm, or the farm one legal entry further.
pub fn stops_keep_farms()
    ensures { (f : Farm) (rows : Rows) (list : List Row) → IsKeptFarm f → MayBe f rows → Lists list rows → IsOpenedAgain f (recovered list) }
{
    legal_runs_keep_farms();
    rows_fit();
    stores_are_listed_in_order();
    farms_are_recovered();
}

/// The rows that a stop may leave of a farm whose rows of format 1 were to be migrated, these or those that they were to become, are, opened again, that
/// farm.
pub fn migrations_keep_farms()
    ensures { (given : List Row) (f : Farm) (rows : Rows) (list : List Row) → AreOf given f → HasRowsIn 1 f → MayBeOld f rows → Lists list rows
        → AreOf list f }
{
    rows_fit();
    stores_are_listed_in_order();
    farms_are_recovered();
    rows_recovered_are_the_farms();
}

/// So a stop at any moment of a session keeps each line that was acknowledged, whether its farm was opened over given rows or stated: what the store is,
/// opened again, is the farm that all lines so far have made, or that farm one legal entry further.
pub fn stops_keep_acknowledged_lines()
    ensures given { (given : List Row) (first : Farm) (form : WordForm) (opened : ℕ) (exchanges : List Exchange) (rows : Rows) (list : List Row)
        → AreOf given first → IsLegal first (opening_entries form opened) → All (λ t. t.moment < 2 ^ 64) exchanges
        → MayBe (farm_after (opened_farm form first opened) exchanges) rows → Lists list rows
        → IsOpenedAgain (farm_after (opened_farm form first opened) exchanges) (recovered list) }
    ensures stated { (form : WordForm) (opened : ℕ) (exchanges : List Exchange) (rows : Rows) (list : List Row)
        → IsLegal empty_farm (opening_entries form opened) → All (λ t. t.moment < 2 ^ 64) exchanges
        → MayBe (farm_after (opened_farm form empty_farm opened) exchanges) rows → Lists list rows
        → IsOpenedAgain (farm_after (opened_farm form empty_farm opened) exchanges) (recovered list) }
{
    stops_keep_farms();
    legal_runs_keep_farms();
    rows_recovered_are_the_farms();
    sessions_are_legal();
}

/// Over a keeper in memory the last call up to the end of a line whose reply is by a mark of the store is one of those that were to fail. So no such
/// reply can stand at a line of which the store took what was asked.
pub fn store_marks_stand_at_failed_calls()
    ensures { (f : Farm) (t : Exchange) (before now : Kept)
        → GoesOnAt Commits (λ (_ : Kept). ⊤) (λ (k : Kept) rows. rows ≡ k.rows) (λ (k : Kept). MayRemain k.rows k.refused) (λ (k : Kept). k.plan.faults)
        f t before now → is_store_mark t.mark ≡ true → has_just_failed now.plan ≡ true }
{}
