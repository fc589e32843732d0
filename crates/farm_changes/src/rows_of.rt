//! The rows that boots, locks and silence of hosts leave, each by a draft.

ghost use Rattle.std.specs.Prelude.{◌≡◌, map, IfOk};
ghost use Rattle.farm_types.specs.Farm.{changed_at, host_named};
ghost use Rattle.farm_types.specs.Hosts.{locked_row, reopened_row};
ghost use Rattle.farm_types.specs.Kept.{KeepsRows};
ghost use Rattle.farm_types.specs.Step.{at_moment, expire};
ghost use Rattle.farm_draft.specs.Rows.{AreReady, installed};
ghost use Rattle.farm_changes.specs.RowsOf.{ending_life, lives_ended};

use farm_books::Books;
use farm_draft::{Draft, Rows};
use farm_types::{BootLine, HostNo, LockState};
use std::alloc::{AllocError, Global};

/// Every host that is up counts as heard.
pub(crate) fn opened_rows(alloc: Global, books: &Books, moment: u64) -> Result<Rows, AllocError>
    ensures farm { IfOk result (λ rows. installed (at_moment books.now.farm moment) rows
        ≡ record (at_moment books.now.farm moment) { hosts = map (reopened_row moment) books.now.farm.hosts }) }
    ensures ready { IfOk result (λ rows. AreReady books.now.farm rows) }
{
    let mut draft = Draft::new(alloc, books, moment);
    draft.reopen()?;
    draft.into_rows(alloc)
}

/// Silent hosts go down, and the attempts on them are lost.
pub(crate) fn expired_rows(alloc: Global, books: &Books, moment: u64) -> Result<Rows, AllocError>
    requires kept { KeepsRows books.now.farm }
    ensures farm { IfOk result (λ rows. installed (at_moment books.now.farm moment) rows ≡ expire (at_moment books.now.farm moment) moment) }
    ensures ready { IfOk result (λ rows. AreReady books.now.farm rows) }
{
    let mut draft = Draft::new(alloc, books, moment);
    draft.expire()?;
    draft.into_rows(alloc)
}

/// A host's lock gets that state.
pub(crate) fn locked_rows(
    alloc: Global,
    books: &Books,
    moment: u64,
    host: HostNo,
    lock: LockState,
) -> Result<Rows, AllocError>
    ensures farm { IfOk result (λ rows. installed (at_moment books.now.farm moment) rows
        ≡ record (at_moment books.now.farm moment) { hosts = changed_at books.now.farm.hosts host (locked_row lock) }) }
    ensures ready { IfOk result (λ rows. AreReady books.now.farm rows) }
{
    let mut draft = Draft::new(alloc, books, moment);
    draft.lock(host, lock)?;
    draft.into_rows(alloc)
}

/// Silent hosts go down, and where the boot begins a new life of a host, the attempts of the old one are lost.
pub(crate) fn boot_rows(
    alloc: Global,
    books: &Books,
    moment: u64,
    line: &BootLine,
) -> Result<Rows, AllocError>
    requires kept { KeepsRows books.now.farm }
    ensures farm { IfOk result (λ rows. installed (at_moment books.now.farm moment) rows
        ≡ lives_ended (expire (at_moment books.now.farm moment) moment) line.now) }
    ensures ready { IfOk result (λ rows. AreReady books.now.farm rows) }
{
    let mut draft = Draft::new(alloc, books, moment);
    draft.expire()?;
    if let Some(host) = ending_life(books, line) {
        draft.lose(host)?;
    }
    draft.into_rows(alloc)
}

// The host of the boot, where it is there and its life another one.
fn ending_life(books: &Books, line: &BootLine) -> Option<HostNo>
    ensures { result ≡ ending_life books.now.farm line.now (host_named books.now.farm line.now.host) }
{
    let host = books.host_named(line.host.as_str())?;
    let row = books.host(host)?;
    if row.nonce == line.nonce {
        None
    } else {
        Some(host)
    }
}
