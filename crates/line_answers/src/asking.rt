//! What a line asks.

ghost use Rattle.std.specs.Prelude.{◌≡◌, IfOk};
ghost use Rattle.farm_lines.specs.Asked.{IsFormedAsked, asked_of};
ghost use Rattle.line_answers.specs.Asking.{Asks, IsUnbooked};
ghost use Rattle.line_answers.specs.LineAnswers.{fault_reply};
ghost use Rattle.line_answers.specs.Lines.{IsLineOf, shown};

use crate::reply_line::{ReplyLine, line_of};
use farm_lines::{Asked, Reply, Request, RequestFault};
use farm_types::Act;
use json::Scratch;
use report_codec::read_request;
use std::alloc::Global;

/// What the line asks, or the line of the reply to its first fault. What is asked is within its forms and limits. Texts with escapes are read into the
/// scratch, which is kept from line to line.
pub fn ask(alloc: Global, line: &[u8], scratch: &mut Scratch) -> Result<Asked, ReplyLine>
    ensures asks { Asks line.now result }
    ensures formed { IfOk result IsFormedAsked }
    ensures unbooked { IfOk result IsUnbooked }
{
    match read_request(alloc, line, scratch) {
        Ok(request) => Ok(asked_of(request)),
        Err(fault) => Err(fault_line(alloc, fault)),
    }
}

/// What a request comes to.
pub fn asked_of(request: Request) -> Asked
    ensures value { result ≡ asked_of request }
    ensures unbooked { IsUnbooked result }
{
    match request {
        Request::Show { name } => Asked::Act(Act::Show { name }),
        Request::Alloc { facility, tag } => Asked::Act(Act::Alloc { facility, tag }),
        Request::Sub(line) => Asked::Act(Act::Sub(line)),
        Request::Limit { name, most } => Asked::Act(Act::Limit { name, most }),
        Request::Boot(line) => Asked::Act(Act::Boot(line)),
        Request::Report(report) => Asked::Report(report),
        Request::Lock { host, lock } => Asked::Act(Act::Lock { host, lock }),
        Request::Submit(spec) => Asked::Act(Act::Submit(spec)),
        Request::Depend(spec) => Asked::Act(Act::AddDepend(spec)),
        Request::Drop { depend } => Asked::Act(Act::DropDepend { depend }),
        Request::Pause { job, paused } => Asked::Act(Act::Pause { job, paused }),
        Request::KillJob { job } => Asked::Act(Act::KillJob { job }),
        Request::KillFrame(place) => Asked::Act(Act::KillFrame(place)),
        Request::EatFrame(place) => Asked::Act(Act::EatFrame(place)),
        Request::RetryFrame(place) => Asked::Act(Act::RetryFrame(place)),
        Request::Tick => Asked::Act(Act::Tick),
        Request::List(query) => Asked::List(query),
    }
}

// The line of the reply to a malformed line.
fn fault_line(alloc: Global, fault: RequestFault) -> ReplyLine
    ensures { IsLineOf (fault_reply fault) (shown result) }
{
    line_of(alloc, &fault_reply(fault))
}

// The reply to a malformed line.
fn fault_reply(fault: RequestFault) -> Reply
    ensures { result ≡ fault_reply fault }
{
    match fault {
        RequestFault::BadLine { field } => Reply::BadLine { field },
        RequestFault::BadRange { layer, fault } => Reply::BadRange { layer, fault },
        RequestFault::BadAmount { field } => Reply::BadAmount { field },
        RequestFault::NoMemory => Reply::NoMemory,
    }
}
