//! How the scheduler ends.

ghost use Rattle.std.specs.Prelude.{◌≡◌, [], OnOk, IfOk};

use crate::served::{keeper, serve, serve_over};
use command_line::Status;
use cue_io::MemorySource;
use farm_keeper::{Batch, Keeper, MemoryKeeper, Row};
use farm_types::Items;
use listener::MemoryListener;
use serving::shared_sessions::shared_rounds::OpenGate;
use std::alloc::{AllocError, Global};
use std::test::Fail;

// One worker for one connection.
const ONE: [&str; 5] = ["serve", ":memory:", "7412", "1", "1"];

// A listener with a connection that brings this. Its calls in `failing` fail.
fn listener(alloc: Global, line: &[u8], failing: &[u64]) -> Result<MemoryListener, AllocError> {
    let mut inputs = Vec::new(alloc);
    inputs.push(MemorySource::make(alloc, line, 1, &[])?)?;
    MemoryListener::make(alloc, inputs, 8, failing)
}

// A keeper whose only row is no row of a farm.
fn spoilt(alloc: Global) -> Result<MemoryKeeper, AllocError>
    ensures { IfOk result (λ keeper. keeper.refused ≡ []) }
{
    let mut keeper = MemoryKeeper::make(alloc, &[])?;
    let mut puts = Items::new(alloc);
    puts.push(Row {
        kind: 5,
        id: 0,
        bytes: Items::from_vec(Vec::from_slice(alloc, b"[")?),
    })?;
    put(
        alloc,
        &mut keeper,
        Batch {
            puts,
            deletes: Items::new(alloc),
        },
    )?;
    Ok(keeper)
}

// Commits a batch that isn't to fail.
fn put(alloc: Global, keeper: &mut MemoryKeeper, batch: Batch) -> Result<(), AllocError>
    ensures { OnOk result (keeper.new.refused ≡ []) }
{
    match keeper.commit(alloc, batch) {
        Ok(()) => Ok(()),
        Err(_) => Err(AllocError),
    }
}

#[test]
fn each_status_but_no_memory_comes_as_it_is_said(rt: HostRuntime) -> Result<(), Fail> {
    let alloc = rt.alloc();
    let one = || Vec::from_array(alloc, [OpenGate]);
    let mut taken = listener(alloc, b"", &[])?;
    let status = serve(&rt, alloc, &ONE, &[], &mut taken, one()?)?;
    assert_eq!(rt; status, Status::Done);
    assert_eq!(rt; taken.accepted(), 1);

    let mut untaken = listener(alloc, b"", &[])?;
    for words in [
        ["serve", "", "7412", "1", "1"],
        ["serve", ":memory:", "0", "1", "1"],
        ["serve", ":memory:", "65536", "1", "1"],
        ["serve", ":memory:", "7412", "65", "1"],
        ["serve", ":memory:", "7412", "1", "1000000001"],
        ["serve", ":memory:", "7412", "1", "00000000001"],
        ["script", ":memory:", "7412", "1", "1"],
    ] {
        let status = serve(&rt, alloc, &words, &[], &mut untaken, one()?)?;
        assert_eq!(rt; status, Status::WrongWords);
    }
    let status = serve(&rt, alloc, &["serve"], &[], &mut untaken, one()?)?;
    assert_eq!(rt; status, Status::WrongWords);

    let status = serve(&rt, alloc, &ONE, &[1], &mut untaken, one()?)?;
    assert_eq!(rt; status, Status::StoreFailed);
    let (status, _) = serve_over(&rt, alloc, &ONE, spoilt(alloc)?, &mut untaken, one()?)?;
    assert_eq!(rt; status, Status::BadStore);
    assert_eq!(rt; untaken.accepted(), 0);

    let mut failing = listener(alloc, b"", &[1])?;
    let status = serve(&rt, alloc, &ONE, &[], &mut failing, one()?)?;
    assert_eq!(rt; status, Status::NoConnection);
    assert_eq!(rt; failing.accepted(), 0);
    Ok(())
}

// Whether a keeper has a row with that text.
fn has_row(alloc: Global, keeper: &mut MemoryKeeper, text: &str) -> bool {
    match keeper.load(alloc) {
        Ok(rows) => rows.as_slice().iter().any(|row| str::from_utf8(row.bytes.as_slice()).is_ok_and(
            |bytes| bytes.contains(text),
        )),
        Err(_) => false,
    }
}

#[test]
fn the_keeper_comes_back_with_what_a_connection_recorded(rt: HostRuntime) -> Result<(), Fail> {
    let alloc = rt.alloc();
    let line = b"{\"op\":\"show\",\"name\":\"alpha\"}\n";
    let mut taken = listener(alloc, line, &[])?;
    let gates = Vec::from_array(alloc, [OpenGate])?;
    let begun = keeper(alloc, &[])?;
    let (status, mut kept) = serve_over(&rt, alloc, &ONE, begun, &mut taken, gates)?;
    assert_eq!(rt; status, Status::Done);
    assert!(rt; has_row(alloc, &mut kept, "\"alpha\""));
    assert!(rt; !has_row(alloc, &mut kept, "\"beta\""));
    Ok(())
}
