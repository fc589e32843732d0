//! Changes of the farm that were prepared.

ghost use Rattle.std.specs.Prelude.{◌≡◌};

use farm_depends::Follow;
use farm_rows::RowChange;
use farm_types::{Answer, HostNo, Items, JobNo};

/// A change that was prepared for an entry: what its act does, what follows of depends, which jobs finish, the rows of the store that change, and the
/// farm's answer. It is applied once its memory is reserved.
#[derive(Drop)]
pub struct Change {
    pub(crate) act: farm_changes::Change,
    pub(crate) follow: Follow,
    pub(crate) finish: Items<JobNo>,
    pub(crate) rows: Items<RowChange>,
    pub(crate) answer: Answer,
}

impl Change {
    /// What the farm answers once the change is applied.
    pub fn answer(&self) -> Answer
        ensures { result ≡ self.now.answer }
    {
        self.answer
    }

    /// The host that a report is of, and none for another act.
    pub fn heard(&self) -> Option<HostNo>
        ensures { result ≡ self.now.act.heard }
    {
        self.act.heard()
    }

    /// The rows of the store that change: exactly those in which the farm and the one that the change makes differ, each as it will be. They were found
    /// as the change was prepared.
    pub fn batch(&self) -> &[RowChange]
        ensures { result.now ≡ self.now.rows }
    {
        self.rows.as_slice()
    }
}
