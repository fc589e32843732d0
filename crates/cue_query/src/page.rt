//! A page of a list.

ghost use Rattle.std.specs.Prelude.{◌≡◌, ◌<◌, ◌≤◌, ◌+◌, ◌-◌, ◌^◌, IfOk, List, OnOk, drop, false, length, true};
ghost use Rattle.farm_lines.specs.declared.list_row.ListRow as row;
ghost use Rattle.cue_query.specs.Pages.{new_page, offered, offered_all, passed_by, reply_of, takes_next};

use farm_lines::{ListReply, ListRow, ROWS_EACH};
use farm_types::Items;
use std::alloc::{AllocError, Global};

/// The rows of a list from a place on, at most 1,000, and how many rows were listed so far, those before the place and past the
/// page too.
#[derive(Debug, Drop)]
pub(crate) struct Page {
    pub(crate) from: u64,
    pub(crate) seen: u64,
    pub(crate) rows: Items<ListRow>,
}

impl Page {
    /// The page from a place on, before any row is listed. It takes no memory until a row stands on it.
    pub(crate) fn new(alloc: Global, from: u64) -> Page
        ensures { result ≡ new_page from }
    {
        Page {
            from,
            seen: 0,
            rows: Items::new(alloc),
        }
    }

    /// Whether the next row stands on the page.
    pub(crate) fn takes_next(&self) -> bool
        ensures { result ≡ takes_next self.now }
    {
        self.from <= self.seen && self.rows.len() < ROWS_EACH as usize
    }

    /// The next row, which stands on the page.
    pub(crate) fn push(&mut self, row: ListRow) -> Result<(), AllocError>
        requires takes { takes_next self.old ≡ true }
        requires room { self.old.seen < 2 ^ 63 }
        ensures { OnOk result (self.new ≡ offered self.old row) }
    {
        self.rows.push(row)?;
        self.seen += 1;
        Ok(())
    }

    /// The next row, which doesn't stand on the page and need not be made.
    pub(crate) fn pass(&mut self)
        requires takes { takes_next self.old ≡ false }
        requires room { self.old.seen < 2 ^ 63 }
        ensures { (listed : row.ListRow) → self.new ≡ offered self.old listed }
    {
        self.seen += 1;
    }

    /// Passes the rows of a list of so many from a place on, up to one that stands on the page. They need not be made. It gives the place
    /// of that one, and how many rows there are where none does.
    pub(crate) fn next_row(&mut self, place: usize, count: usize) -> usize
        requires within { place ≤ count }
        requires room { self.old.seen + (count - place) < 2 ^ 63 }
        ensures value { result ≡ place + passed_by self.old (count - place) }
        ensures behind { place ≤ result }
        ensures within { result ≤ count }
        ensures seen { self.new.seen ≡ self.old.seen + (result - place) }
        ensures rows { (all : List row.ListRow) → length all ≡ count → offered_all self.new (drop result all) ≡ offered_all self.old (drop place all) }
    {
        place + self.skip(count - place)
    }

    // Passes the next rows, of which so many are left, up to one that stands on the page, and gives how many.
    fn skip(&mut self, left: usize) -> usize
        requires { self.old.seen + left < 2 ^ 63 }
        ensures value { result ≡ passed_by self.old left }
        ensures within { result ≤ left }
        ensures seen { self.new.seen ≡ self.old.seen + result }
        ensures rows { (listed : List row.ListRow) → length listed ≡ result → self.new ≡ offered_all self.old listed }
    {
        let passed = self.passed_by(left);
        self.seen += passed as u64;
        passed
    }

    // How many of the next rows, of which so many are left, come before one that stands on the page.
    fn passed_by(&self, left: usize) -> usize
        ensures value { result ≡ passed_by self.now left }
        ensures within { result ≤ left }
    {
        if self.rows.len() >= ROWS_EACH as usize {
            return left;
        }
        self.from.saturating_sub(self.seen).min(left as u64) as usize
    }

    /// The reply: the rows on the page, and how many were listed.
    pub(crate) fn into_reply(self) -> ListReply
        ensures { result ≡ reply_of self }
    {
        let Page {
            from: _from,
            seen,
            rows,
        } = self;
        ListReply { rows, total: seen }
    }
}
