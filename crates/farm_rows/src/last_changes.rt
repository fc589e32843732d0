//! Of changes one after the other, the last of each key, where it differs from the row that stands there.

ghost use Rattle.std.specs.Prelude.{◌≡◌, ◌+◌, ◌↔◌, ℕ, IfOk, IsTrue, OnOk};
ghost use Rattle.farm_types.specs.Farm.{Farm};
ghost use Rattle.farm_rows.specs.Changes.{NamesExactly, change_key, row_after, row_at};
ghost use Rattle.farm_rows.specs.declared.row_key.RowKey.{RowKey};
ghost use Rattle.farm_rows.specs.Keys.{ChangesNothing};
ghost use Rattle.farm_rows.specs.Seen.{HasRoom, IsTold, seen_parts};

use crate::old_rows::OldRows;
use crate::row_change::RowChange;
use crate::seen_keys::SeenKeys;
use farm_types::Items;
use std::alloc::{AllocError, Global};

/// Of changes one after the other, exactly those that make the rows other ones than those that stand there: the last of each key, where it differs
/// from the row of its key. Each key is named once, in no order. Those that stay aren't moved where all do.
pub fn exactly<R: OldRows>(
    alloc: Global,
    rows: &R,
    changes: Vec<RowChange>,
) -> Result<Items<RowChange>, AllocError>
    ensures { IfOk result (λ exact. (g : Farm) → ((k : RowKey) → row_at g k ≡ row_after changes.items k (row_at (R.farm rows.now) k))
        → NamesExactly (R.farm rows.now) g exact) }
{
    let mut changes = changes;
    let mut seen = SeenKeys::make(alloc, changes.len())?;
    let mut place = changes.len();
    while place > 0 {
        place -= 1;
        let last = is_last_change(rows, &mut seen, &changes.as_slice()[place])?;
        if last {
            continue;
        }
        let_go(changes.swap_remove(place));
    }
    Ok(Items::from_vec(changes))
}

fn let_go(_change: RowChange) {}

// Whether no later change is of its key, and the row isn't as the change makes it. Its key is noted.
fn is_last_change<R: OldRows>(
    rows: &R,
    seen: &mut SeenKeys,
    change: &RowChange,
) -> Result<bool, AllocError>
    requires { HasRoom seen.old 1 }
    ensures told { IfOk result (IsTold (R.farm rows.now) change.now (seen_parts seen.old) (seen_parts seen.new)) }
    ensures room { OnOk result ((n : ℕ) → HasRoom seen.old (n + 1) → HasRoom seen.new n) }
{
    let new = seen.note(&change.key())?;
    Ok(new && !changes_nothing(rows, change))
}

// Whether the row of the key is as the change makes it.
fn changes_nothing<R: OldRows>(rows: &R, change: &RowChange) -> bool
    ensures { IsTrue result ↔ ChangesNothing change.now (row_at (R.farm rows.now) (change_key change.now)) }
{
    match change {
        RowChange::Put(row) => rows.is_same(row),
        RowChange::Delete { key } => !rows.has(*key),
    }
}
