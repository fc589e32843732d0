//! Worked examples of a farm's rows, proved by computing them. The public functions here do nothing.

ghost use Rattle.std.specs.Prelude.{◌≡◌, ◌∷◌, [], false, map};
ghost use Rattle.farm_types.specs.Farm.{empty_farm};
ghost use Rattle.farm_rows.specs.Examples.{ids_of, kinds_of, new_farm, opened_farm, slots_of, used, waiting};
ghost use Rattle.farm_rows.specs.Rows.{rows_of, row_id, row_kind};

/// A farm that no entry has made has no rows, and once it was opened at moment 0 it has its own, with each next number 1.
pub fn new_farms_have_one_row()
    ensures none { rows_of empty_farm ≡ [] }
    ensures one { rows_of opened_farm ≡ new_farm }
{}

/// A slot that is free has a row exactly where it was used: at a version above 0.
pub fn unused_slots_have_no_row()
    ensures ids { slots_of (waiting ∷ used 0 ∷ used 3 ∷ []) ≡ 0 ∷ 2 ∷ [] }
{}

/// A small farm's rows, by kind, then id: two shows, their subscriptions, a job with two layers and its frames, a depend with two met groups, two limits.
pub fn every_kind_has_its_rows()
    ensures kinds { kinds_of ≡ 1 ∷ 2 ∷ 2 ∷ 3 ∷ 4 ∷ 4 ∷ 5 ∷ 6 ∷ 7 ∷ 7 ∷ 8 ∷ 8 ∷ 9 ∷ 10 ∷ 10 ∷ 11 ∷ 11 ∷ [] }
    ensures ids { ids_of ≡ 0 ∷ 0 ∷ 1 ∷ 0 ∷ 0 ∷ 16 ∷ 0 ∷ 3 ∷ 192 ∷ 193 ∷ 0 ∷ 1 ∷ 2 ∷ 32768 ∷ 32771 ∷ 0 ∷ 1 ∷ [] }
{}
