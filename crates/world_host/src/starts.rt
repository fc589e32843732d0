//! What a line to a host starts.

ghost use Rattle.std.specs.Prelude.{◌≡◌, ◌≤◌, ◌+◌, ◌++◌, Ok, length, IfOk, OnErr, OnOk};
ghost use Rattle.std.specs.Vec.{vec_capacity};
ghost use Rattle.farm_lines.specs.ReplyLines.{reply_of};
ghost use Rattle.rqd_core.specs.Replies.{take_line};
ghost use Rattle.world_law.specs.Hosts.{attempts_in, starts_of};
ghost use Rattle.world_host.specs.Starts.{launches_in, launches_of};

use client_codec::{ReplyFault, read_reply};
use farm_lines::{Launch, Reply};
use farm_types::Attempt;
use json::Scratch;
use rqd_core::{Orders, Rqd, RqdFault};
use std::alloc::{AllocError, Global};

/// A line comes to the daemon, and the attempts that it starts go behind the others.
pub(crate) fn take_line(
    alloc: Global,
    rqd: &mut Rqd,
    started: &mut Vec<Attempt>,
    line: &[u8],
) -> Result<(), AllocError>
    ensures life { OnOk result (rqd.new ≡ (take_line rqd.old line.now).life) }
    ensures started { OnOk result (started.new.items ≡ started.old.items ++ starts_of (take_line rqd.old line.now).told) }
    ensures same_life { OnErr result (rqd.new ≡ rqd.old) }
    ensures same_starts { OnErr result (started.new.items ≡ started.old.items) }
{
    let count = count_launches(alloc, line)?;
    started.reserve(count)?;
    match rqd.take_reply(alloc, line) {
        Ok(orders) => {
            push_starts(started, orders);
            Ok(())
        }
        Err(RqdFault::NotAReply) => Ok(()),
        Err(RqdFault::NotLatest { .. }) => Ok(()),
        Err(RqdFault::Refused { .. }) => Ok(()),
        Err(RqdFault::NoMemory) => Err(AllocError),
    }
}

// How many launches the reply has that the line is.
fn count_launches(alloc: Global, line: &[u8]) -> Result<usize, AllocError>
    ensures { IfOk result (λ count. count ≡ launches_in (reply_of line.now)) }
{
    let mut scratch = Scratch::new(alloc);
    match read_reply(alloc, line, &mut scratch) {
        Ok(reply) => Ok(launches_of(&reply)),
        Err(ReplyFault::NotAReply) => Ok(0),
        Err(ReplyFault::NoMemory) => Err(AllocError),
    }
}

// How many launches the reply has.
fn launches_of(reply: &Reply) -> usize
    ensures { result ≡ launches_of reply.now }
{
    match reply {
        Reply::Report(report) => report.launches.len(),
        _ => 0,
    }
}

// The attempts that are to be started go behind the others.
fn push_starts(started: &mut Vec<Attempt>, orders: Orders)
    requires { length started.old.items + length orders.starts ≤ vec_capacity started.old }
    ensures { started.new.items ≡ started.old.items ++ starts_of (Ok orders) }
{
    push_attempts(started, orders.starts.as_slice());
}

// The attempts of launches go behind the others.
fn push_attempts(started: &mut Vec<Attempt>, launches: &[Launch])
    requires { length started.old.items + length launches.now ≤ vec_capacity started.old }
    ensures { started.new.items ≡ started.old.items ++ attempts_in launches.now }
{
    for launch in launches {
        started.push_reserved(launch.attempt);
    }
}
