//! What events do on hosts.

ghost use Rattle.std.specs.Prelude.{◌≡◌, ◌++◌, ◌∷◌, [], OnErr, OnOk};
ghost use Rattle.world_law.specs.Hosts.{after_send};
ghost use Rattle.world_core.specs.Stepping.{Begins, BeginsOn, Ends, EndsOn, Sends, Takes, line_from};

use farm_types::{Attempt, Exit, Items};
use std::alloc::{AllocError, Global};
use std::mem;
use world_host::Host;
use world_law::{Sent, WorldFault};

/// A host sends its next line, which goes behind the others.
pub(crate) fn send(
    alloc: Global,
    hosts: &mut Vec<Host>,
    sent: &mut Items<Sent>,
    host: u32,
) -> Result<(), WorldFault>
    ensures { Sends hosts.old.items sent.old host result hosts.new.items sent.new }
{
    match hosts.get_mut(host as usize) {
        Some(own) => Ok(send_from(alloc, host, own, sent)?),
        None => Err(WorldFault::NoSuch),
    }
}

// The host's next line goes behind the others.
fn send_from(
    alloc: Global,
    number: u32,
    host: &mut Host,
    sent: &mut Items<Sent>,
) -> Result<(), AllocError>
    ensures host { OnOk result (host.new ≡ after_send host.old) }
    ensures sent { OnOk result (sent.new ≡ sent.old ++ line_from number host.old ∷ []) }
    ensures same_host { OnErr result (host.new ≡ host.old) }
    ensures same_lines { OnErr result (sent.new ≡ sent.old) }
{
    let mut lines = mem::replace(sent, Items::new(alloc)).into_vec();
    let pushed = push_line(alloc, number, host, &mut lines);
    *sent = Items::from_vec(lines);
    pushed
}

// The host's next line goes behind these.
fn push_line(
    alloc: Global,
    number: u32,
    host: &mut Host,
    lines: &mut Vec<Sent>,
) -> Result<(), AllocError>
    ensures host { OnOk result (host.new ≡ after_send host.old) }
    ensures lines { OnOk result (lines.new.items ≡ lines.old.items ++ line_from number host.old ∷ []) }
    ensures same_host { OnErr result (host.new ≡ host.old) }
    ensures same_lines { OnErr result (lines.new.items ≡ lines.old.items) }
{
    lines.reserve(1)?;
    let line = host.send(alloc)?;
    lines.push_reserved(Sent {
        host: Some(number),
        line,
    });
    Ok(())
}

/// A line comes to a host.
pub(crate) fn take(
    alloc: Global,
    hosts: &mut Vec<Host>,
    host: u32,
    line: &[u8],
) -> Result<(), WorldFault>
    ensures { Takes hosts.old.items host line.now result hosts.new.items }
{
    match hosts.get_mut(host as usize) {
        Some(own) => Ok(own.take(alloc, line)?),
        None => Err(WorldFault::NoSuch),
    }
}

/// An attempt that a host runs ends.
pub(crate) fn end(
    hosts: &mut Vec<Host>,
    host: u32,
    attempt: &Attempt,
    exit: Exit,
) -> Result<(), WorldFault>
    ensures { Ends hosts.old.items host attempt.now exit result hosts.new.items }
{
    match hosts.get_mut(host as usize) {
        Some(own) => end_on(own, attempt, exit),
        None => Err(WorldFault::NoSuch),
    }
}

// An attempt ends, if the host runs it.
fn end_on(host: &mut Host, attempt: &Attempt, exit: Exit) -> Result<(), WorldFault>
    ensures { EndsOn host.old attempt.now exit result host.new }
{
    if !host.is_running(attempt) {
        return Err(WorldFault::NoSuch);
    }
    host.end(*attempt, exit);
    Ok(())
}

/// A host begins a new life.
pub(crate) fn begin_life(
    alloc: Global,
    hosts: &mut Vec<Host>,
    host: u32,
    nonce: u64,
) -> Result<(), WorldFault>
    ensures { Begins hosts.old.items host nonce result hosts.new.items }
{
    match hosts.get_mut(host as usize) {
        Some(own) => begin_on(alloc, own, nonce),
        None => Err(WorldFault::NoSuch),
    }
}

// The host begins a new life, if it never used the nonce.
fn begin_on(alloc: Global, host: &mut Host, nonce: u64) -> Result<(), WorldFault>
    ensures { BeginsOn host.old nonce result host.new }
{
    if host.has_used(nonce) {
        return Err(WorldFault::UsedNonce { nonce });
    }
    host.begin_life(alloc, nonce)?;
    Ok(())
}
