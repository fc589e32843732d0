//! Attempts that end with a completion.

ghost use Rattle.std.specs.Prelude.{◌≡◌, OnOk};
ghost use Rattle.farm_types.specs.Step.{end_all, end_attempt};
ghost use Rattle.farm_draft.specs.Drafted.{with_farm};

use crate::draft::Draft;
use crate::verdict::ended_row;
use farm_books::is_attempt;
use farm_types::{DoneItem, HostNo};
use std::alloc::AllocError;

impl<'a> Draft<'a> {
    /// The completions, in order.
    pub fn end_all(&mut self, host: HostNo, boot: u32, done: &[DoneItem]) -> Result<(), AllocError>
        ensures { OnOk result (self.new ≡ with_farm self.old (end_all self.old.farm host boot done.now)) }
    {
        for item in done {
            self.end_attempt(host, boot, item)?;
        }
        Ok(())
    }

    // One completion, which changes nothing unless the attempt is live.
    fn end_attempt(&mut self, host: HostNo, boot: u32, item: &DoneItem) -> Result<(), AllocError>
        ensures { OnOk result (self.new ≡ with_farm self.old (end_attempt self.old.farm host boot item.now)) }
    {
        let slot = item.attempt.slot;
        let Some(change) = self.slot(slot) else {
            return Ok(());
        };
        let Some(live) = &change.row.proc else {
            return Ok(());
        };
        if !is_attempt(host, boot, item.attempt.version, live) {
            return Ok(());
        }
        let books = self.books;
        self.set_slot(slot, &change.was, ended_row(books, item.exit, &change.row))
    }
}
