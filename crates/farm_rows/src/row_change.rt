//! Changes of the rows of the store.

ghost use Rattle.std.specs.Prelude.{◌≡◌};
ghost use Rattle.farm_rows.specs.Changes.{change_key, slot_change};
ghost use Rattle.farm_rows.specs.Rows.{is_unused};

use crate::farm_row::FarmRow;
use crate::frame_row::FrameRow;
use crate::row_key::RowKey;
use farm_types::{Slot, SlotRow};

/// A row that is put in, in the place of the one that has its key, or one that is taken out.
#[derive(Debug, Drop)]
pub enum RowChange {
    Put(FarmRow),
    Delete { key: RowKey },
}

impl RowChange {
    /// The key of the row that is put in or taken out.
    pub fn key(&self) -> RowKey
        ensures { result ≡ change_key self.now }
    {
        match self {
            RowChange::Put(row) => row.key(),
            RowChange::Delete { key } => *key,
        }
    }

    /// The change of a slot that gets that row. Where it is one of a slot that was never used, no row is left.
    pub fn of_slot(slot: Slot, row: &SlotRow) -> RowChange
        ensures { result ≡ slot_change slot row.now }
    {
        if is_unused(row) {
            return RowChange::Delete {
                key: RowKey::Frame { slot },
            };
        }
        RowChange::Put(FarmRow::Frame(FrameRow::of_slot(slot, row)))
    }
}

// Whether the slot is free at version 0.
fn is_unused(row: &SlotRow) -> bool
    ensures { result ≡ is_unused row.now }
{
    row.frame.is_none() && row.version.0 == 0
}
