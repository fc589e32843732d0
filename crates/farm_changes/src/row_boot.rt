//! The row of a host that boots.

ghost use Rattle.std.specs.Prelude.{◌≡◌, ◌++◌, [], None, Some, option_map, slice_get, IfOk, OnOk};
ghost use Rattle.farm_types.specs.Farm.{host_named};
ghost use Rattle.farm_types.specs.Hosts.{booted_row, new_host};
ghost use Rattle.host_book.specs.Book.{alloc_of};
ghost use Rattle.farm_changes.specs.RowChanges.{HasBoots, HasBootsLeft, boot_put, last_life, life_over, reboot_put};

use crate::row_changes::with_life;
use farm_books::Books;
use farm_rows::{FarmRow, RowChange};
use farm_types::{AllocNo, BootLine, HostNo, HostRow, HostState, LockState};
use host_book::{BootPlan, HostLife};
use std::alloc::{AllocError, Global};

/// A host boots, where hosts got those lives before.
pub(crate) fn put_boot(
    alloc: Global,
    books: &Books,
    lives: &[(u32, HostLife)],
    plan: &BootPlan,
    line: &BootLine,
    moment: u64,
    into: &mut Vec<RowChange>,
) -> Result<(), AllocError>
    requires { HasBoots books.now.farm.hosts line.now (host_named books.now.farm line.now.host) }
    ensures { OnOk result (into.new.items ≡ into.old.items
        ++ boot_put books.now.farm.hosts lives.now line.now (alloc_of plan.now) moment (host_named books.now.farm line.now.host)) }
{
    match books.host_named(line.host.as_str()) {
        None => put_new_host(alloc, books, alloc_of(plan), line, moment, into),
        Some(host) => put_reboot(alloc, books, lives, host, line, moment, into),
    }
}

// The allocation of a planned boot.
fn alloc_of(plan: &BootPlan) -> AllocNo
    ensures { result ≡ alloc_of plan.now }
{
    match plan {
        BootPlan::New { alloc, .. } => *alloc,
        BootPlan::Same { alloc, .. } => *alloc,
        BootPlan::Again { alloc, .. } => *alloc,
    }
}

// A host boots for the first time.
fn put_new_host(
    alloc: Global,
    books: &Books,
    allocation: AllocNo,
    line: &BootLine,
    moment: u64,
    into: &mut Vec<RowChange>,
) -> Result<(), AllocError>
    ensures { OnOk result (into.new.items ≡ into.old.items ++ boot_put books.now.farm.hosts [] line.now allocation moment None) }
{
    let host = HostNo(books.count_hosts() as u16);
    let row = new_host(alloc, allocation, line, moment)?;
    into.push(RowChange::Put(FarmRow::Host { host, row }))?;
    Ok(())
}

// The row of a host that boots for the first time.
fn new_host(
    alloc: Global,
    allocation: AllocNo,
    line: &BootLine,
    moment: u64,
) -> Result<HostRow, AllocError>
    ensures { IfOk result (λ row. row ≡ new_host line.now allocation moment) }
{
    Ok(HostRow {
        name: line.host.copy(alloc)?,
        alloc: allocation,
        tags: line.tags.copy(alloc)?,
        cores: line.cores,
        memory: line.memory,
        boot: 1,
        nonce: line.nonce,
        seq: 0,
        heard: moment,
        lock: LockState::Unlocked,
        state: HostState::Up,
    })
}

// A host that is there boots once more.
fn put_reboot(
    alloc: Global,
    books: &Books,
    lives: &[(u32, HostLife)],
    host: HostNo,
    line: &BootLine,
    moment: u64,
    into: &mut Vec<RowChange>,
) -> Result<(), AllocError>
    requires { HasBootsLeft line.now (slice_get books.now.farm.hosts host) }
    ensures { OnOk result (into.new.items ≡ into.old.items
        ++ reboot_put line.now moment host (option_map (life_over (last_life host lives.now None)) (slice_get books.now.farm.hosts host))) }
{
    let Some(row) = books.host(host) else {
        return Ok(());
    };
    let row = life_over(row.copy(alloc)?, last_life(lives, host));
    let row = booted_row(alloc, row, line, moment)?;
    into.push(RowChange::Put(FarmRow::Host { host, row }))?;
    Ok(())
}

// The last of the lives that are told of the host.
fn last_life(lives: &[(u32, HostLife)], host: HostNo) -> Option<HostLife>
    ensures { result ≡ last_life host lives.now None }
{
    let mut life = None;
    for entry in lives {
        if entry.0 == u32::from(host.0) {
            life = Some(entry.1);
        }
    }
    life
}

// The row with that life, where there is one.
fn life_over(row: HostRow, life: Option<HostLife>) -> HostRow
    ensures { result ≡ life_over life row }
{
    match life {
        None => row,
        Some(life) => with_life(row, &life),
    }
}

// The row of a host that boots once more, in the same life or in a new one.
fn booted_row(
    alloc: Global,
    row: HostRow,
    line: &BootLine,
    moment: u64,
) -> Result<HostRow, AllocError>
    requires { HasBootsLeft line.now (Some row) }
    ensures { IfOk result (λ booted. booted ≡ booted_row line.now moment row) }
{
    let mut row = row;
    row.heard = moment;
    row.state = HostState::Up;
    if row.nonce == line.nonce {
        return Ok(row);
    }
    row.tags = line.tags.copy(alloc)?;
    row.cores = line.cores;
    row.memory = line.memory;
    row.boot += 1;
    row.nonce = line.nonce;
    row.seq = 0;
    Ok(row)
}
