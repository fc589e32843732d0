//! The rows that stand there before changes.

ghost use Rattle.std.specs.Prelude.{◌≡◌, ◌↔◌, Some, is_some, IsTrue};
ghost use Rattle.farm_types.specs.Farm.{Farm};
ghost use Rattle.farm_rows.specs.Changes.{row_at, row_key};

use crate::farm_row::FarmRow;
use crate::row_key::RowKey;

/// The rows of a farm, of which each is asked for by its key.
pub trait OldRows {
    /// The farm whose rows they are.
    ghost farm: { Self → Farm };

    /// Whether the row of its key is this one.
    fn is_same(&self, row: &FarmRow) -> bool
        ensures { IsTrue result ↔ (row_at (farm self.now) (row_key row.now) ≡ Some row.now) };

    /// Whether there is a row of the key.
    fn has(&self, key: RowKey) -> bool
        ensures { result ≡ is_some (row_at (farm self.now) key) };
}
