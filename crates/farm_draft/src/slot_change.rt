//! A slot's change.

ghost use Rattle.std.specs.Prelude.{◌↔◌, ◌≡◌, IsTrue};

use farm_types::{Slot, SlotRow};

/// A slot that is there, the row that the books have of it, and the row that it gets.
#[derive(Clone, Copy, Debug)]
pub struct SlotChange {
    pub slot: Slot,
    pub was: SlotRow,
    pub row: SlotRow,
}

impl SlotChange {
    // Whether the slot gets the row that it has.
    pub(crate) fn changes_nothing(&self) -> bool
        ensures { IsTrue result ↔ (self.now.was ≡ self.now.row) }
    {
        self.was == self.row
    }
}
