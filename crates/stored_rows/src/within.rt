//! What always holds of the farm so far.

ghost use Rattle.std.specs.Prelude.{◌≡◌};
ghost use Rattle.farm_rows.specs.Recovery.{IsFormat};
ghost use Rattle.stored_rows.specs.SoFar.{HasFewNumbers};

use crate::stored_rows::StoredRows;

impl StoredRows {
    /// No layer has more numbers than a job may have frames. It does nothing.
    pub fn kept(&self)
        ensures { HasFewNumbers self.now.farm }
    {
        let _lists = &self.lists;
    }

    /// The format of the rows so far.
    pub fn format(&self) -> u64
        ensures value { result ≡ self.now.format }
        ensures known { IsFormat result }
    {
        self.format
    }

    /// The next number of a depend.
    pub fn next_depend(&self) -> u64
        ensures { result ≡ self.now.farm.next_depend }
    {
        self.next_depend
    }
}
