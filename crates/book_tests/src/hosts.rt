//! The book of hosts.

use farm_types::{AllocNo, BootLine, Cores, HostNo, HostState, Items, Kb, LockState, Text};
use host_book::{HostLife, Hosts};
use std::alloc::{AllocError, Global};
use std::test::Fail;

// The boot of a host.
fn boot_of(alloc: Global) -> Result<BootLine, AllocError> {
    Ok(BootLine {
        host: Text::from_str(alloc, "node1")?,
        nonce: 7,
        alloc: Text::from_str(alloc, "farm.general")?,
        tags: Items::new(alloc),
        cores: Cores(800),
        memory: Kb(33554432),
    })
}

// A book with that host, where the boot is taken.
fn book_with(alloc: Global, line: &BootLine) -> Result<Hosts, AllocError> {
    let mut book = Hosts::make(alloc)?;
    if let Ok(plan) = book.check_boot(line, AllocNo(0)) {
        let reserved = book.reserve(alloc, line)?;
        book.apply_boot(reserved, plan, 5);
    }
    Ok(book)
}

#[test]
fn a_copy_finds_a_host_that_went_down(rt: HostRuntime) -> Result<(), Fail> {
    let line = boot_of(rt.alloc())?;
    let mut book = book_with(rt.alloc(), &line)?;
    assert_eq!(rt; book.count(), 1);
    book.set_life(
        HostNo(0),
        HostLife {
            state: HostState::Down,
            heard: 5,
            seq: 0,
            lock: LockState::Unlocked,
        },
    );
    let copy = book.copy(rt.alloc())?;
    assert_eq!(rt; copy.find("node1"), Some(HostNo(0)));
    let Some(row) = copy.row(HostNo(0)) else {
        return Err(Fail::from("no host"));
    };
    assert_eq!(rt; row.state, HostState::Down);
    Ok(())
}
