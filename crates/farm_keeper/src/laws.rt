//! The laws of rows and batches: functions that do nothing, whose contracts are the laws.
ghost use Rattle.std.specs.Prelude.{◌≡◌, [], ◌∷◌, ◌++◌, false, List, None, Some, map};
ghost use Rattle.std.specs.List.{Contains};
ghost use Rattle.std.specs.List.Sorted.{IsStrictlySortedBy};
ghost use Rattle.std.specs.FinMap.{get};
ghost use Rattle.farm_keeper.specs.declared.row.Batch.{Batch};
ghost use Rattle.farm_keeper.specs.declared.row.Row.{Row};
ghost use Rattle.farm_keeper.specs.Keeping.{HasKept, HoldsOnly, HoldsWith, Keeps, LeavesSome, LeavesTaken, MayLeave};
ghost use Rattle.farm_keeper.specs.Rows.{Key, Lists, NamesEachOnce, Rows, after, is_among, key_cmp, key_of, keys_of, rows_from};

use crate::keeper::Keeper;

/// A batch puts its puts and deletes its deletes, and each other row stays as it was. An empty one changes nothing.
pub fn batches_change_what_they_name()
    ensures put { (batch : Batch) (rows : Rows) (row : Row) → NamesEachOnce batch → Contains batch.puts row
        → get (after batch rows) (key_of row) ≡ Some row.bytes }
    ensures deleted { (batch : Batch) (rows : Rows) (key : Key) → Contains batch.deletes key → get (after batch rows) key ≡ None }
    ensures others { (batch : Batch) (rows : Rows) (key : Key) → is_among (keys_of batch) key ≡ false
        → get (after batch rows) key ≡ get rows key }
    ensures nothing { (batch : Batch) (rows : Rows) → batch.puts ≡ [] → batch.deletes ≡ [] → after batch rows ≡ rows }
{}

/// Rows are listed in one way: by kind and then by id.
pub fn rows_have_one_list()
    ensures only { (list other : List Row) (rows : Rows) → Lists list rows → Lists other rows → list ≡ other }
    ensures from { (list : List Row) (rows : Rows) → Lists list rows → rows_from list ≡ rows }
    ensures listed { (list : List Row) → IsStrictlySortedBy key_cmp (map key_of list) → Lists list (rows_from list) }
{}

/// What a stop leaves of any keeper that tells, from what each of its calls says: the rows, or the rows with one batch whose
/// commit was refused since the last Ok of a commit, and always one of these. Where it holds rows alone, a stop may leave these.
pub fn stops_leave_one_batch<K: Keeper>(earlier: &K, later: &K)
    ensures taken { (batch : Batch) (rows : Rows) → K.tells later.now → K.holds earlier.now rows
        → HoldsWith batch (K.holds earlier.now) (K.holds later.now) → LeavesTaken batch (K.holds earlier.now) (K.left later.now)
        → HasKept (K.holds later.now) (K.left later.now) (after batch rows) [] }
    ensures refused { (batch : Batch) (rows : Rows) (refused : List Batch) → K.tells later.now
        → HasKept (K.holds earlier.now) (K.left earlier.now) rows refused → Keeps (K.holds earlier.now) (K.holds later.now)
        → MayLeave batch (K.holds earlier.now) (K.left earlier.now) (K.left later.now)
        → HasKept (K.holds later.now) (K.left later.now) rows (refused ++ batch ∷ []) }
    ensures loaded { (rows : Rows) (refused : List Batch) → K.tells later.now
        → HasKept (K.holds earlier.now) (K.left earlier.now) rows refused → Keeps (K.holds earlier.now) (K.holds later.now)
        → Keeps (K.left later.now) (K.left earlier.now) → HasKept (K.holds later.now) (K.left later.now) rows refused }
    ensures some { K.tells later.now → LeavesSome (K.left later.now) }
    ensures held { (rows : Rows) → K.tells later.now → HoldsOnly (K.holds later.now) rows → K.left later.now rows }
{}
