//! Entries: prepared, reserved, applied.

ghost use Rattle.std.specs.Prelude.{◌≡◌, ◌≤◌, length, OnOk, OnErr};
ghost use Rattle.farm_types.specs.Formed.{IsFormed};
ghost use Rattle.farm_types.specs.Step.{HasCondition};
ghost use Rattle.farm_core.specs.Change.{IsReady, IsReserved, Prepares, after_change, reserved_of};

use crate::change::Change;
use crate::changes::rows_of_change;
use crate::farm::Farm;
use crate::following::with_follow;
use farm_changes::{apply, prepare, reserve};
use farm_depends::{apply_follow, reserve_follow};
use farm_finish::apply_finish;
use farm_types::{Answer, Entry, FarmFault};
use std::alloc::{AllocError, Global};

impl Farm {
    /// Prepares what the entry does, with the rows of the store that change, and changes nothing. The entry is within its forms and limits, and an
    /// entry to book is one whose booking may be recorded.
    pub fn prepare(&self, alloc: Global, entry: &Entry) -> Result<Change, FarmFault>
        requires condition { HasCondition self.now entry.now.act }
        requires formed { IsFormed entry.now }
        ensures { Prepares self.now entry.now result }
    {
        let act = prepare(alloc, &self.books, entry)?;
        let mut change = with_follow(alloc, &self.books, entry, act)?;
        let rows = rows_of_change(alloc, &self.books, entry, &change)?;
        self.put_rows(alloc, entry, &mut change, rows)?;
        Ok(change)
    }

    /// Takes the memory that the change needs, so that applying it takes none. The farm is as before.
    pub fn reserve(&mut self, alloc: Global, change: &mut Change) -> Result<(), AllocError>
        ensures farm { self.new ≡ self.old }
        ensures ok { OnOk result (change.new ≡ reserved_of change.old) }
        ensures err { OnErr result (change.new ≡ change.old) }
    {
        let spares = reserve_follow(&mut self.books, alloc, &change.follow)?;
        reserve(&mut self.books, alloc, &mut change.act)?;
        change.follow.spares = spares;
        Ok(())
    }

    /// Applies a change that fits the farm and whose memory was taken. It takes no memory.
    pub fn apply(&mut self, change: Change) -> Answer
        requires ready { IsReady self.old change }
        requires reserved { IsReserved change }
        ensures farm { self.new ≡ after_change self.old change }
        ensures answer { result ≡ change.answer }
        ensures hosts { length self.old.hosts ≤ length self.new.hosts }
    {
        self.books.kept();
        let Change {
            act,
            follow,
            finish,
            rows: _rows,
            answer,
        } = change;
        apply(&mut self.books, act);
        apply_follow(&mut self.books, follow);
        apply_finish(&mut self.books, finish);
        answer
    }
}
