//! The entry that a line asks for.

ghost use Rattle.std.specs.Prelude.{◌≡◌, IfSome, IfOk};
ghost use Rattle.farm_lines.specs.Asked.{IsFormedAsked, asked_of};
ghost use Rattle.report_codec.specs.Reads.{AsksWithin};
ghost use Rattle.recorder_start.specs.Asking.{IsUnbooked, MayCommit};

use farm_lines::{Asked, Request, RequestFault};
use farm_types::{Act, Entry};
use json::Scratch;
use report_codec::read_request;
use std::alloc::{AllocError, Global};

/// The entry that a line asks for at a moment (seconds), if it is well formed and asks for one: all of a report but what runs. Texts with escapes are read
/// into the scratch, which is kept from line to line.
pub fn entry_of(
    alloc: Global,
    line: &[u8],
    scratch: &mut Scratch,
    moment: u64,
) -> Result<Option<Entry>, AllocError>
    ensures { IfOk result (λ entry. IfSome entry MayCommit) }
{
    match read_request(alloc, line, scratch) {
        Ok(request) => Ok(entry_for(request, moment)),
        Err(RequestFault::NoMemory) => Err(AllocError),
        Err(_) => Ok(None),
    }
}

// The entry of a request.
fn entry_for(request: Request, moment: u64) -> Option<Entry>
    requires { AsksWithin request }
    ensures { IfSome result MayCommit }
{
    asked_entry(asked_of(request), moment)
}

// The entry of what is asked. A list asks for none.
fn asked_entry(asked: Asked, moment: u64) -> Option<Entry>
    requires formed { IsFormedAsked asked }
    requires unbooked { IsUnbooked asked }
    ensures { IfSome result MayCommit }
{
    match asked {
        Asked::Report(report) => Some(Entry {
            moment,
            act: Act::Heard(report.heard),
        }),
        Asked::Act(act) => Some(Entry { moment, act }),
        Asked::List(_) => None,
    }
}

// What a request comes to.
fn asked_of(request: Request) -> Asked
    ensures value { result ≡ asked_of request }
    ensures unbooked { IsUnbooked result }
{
    match request {
        Request::Show { name } => Asked::Act(Act::Show { name }),
        Request::Alloc { facility, tag } => Asked::Act(Act::Alloc { facility, tag }),
        Request::Sub(line) => Asked::Act(Act::Sub(line)),
        Request::Limit { name, most } => Asked::Act(Act::Limit { name, most }),
        Request::Boot(line) => Asked::Act(Act::Boot(line)),
        Request::Report(report) => Asked::Report(report),
        Request::Lock { host, lock } => Asked::Act(Act::Lock { host, lock }),
        Request::Submit(spec) => Asked::Act(Act::Submit(spec)),
        Request::Depend(spec) => Asked::Act(Act::AddDepend(spec)),
        Request::Drop { depend } => Asked::Act(Act::DropDepend { depend }),
        Request::Pause { job, paused } => Asked::Act(Act::Pause { job, paused }),
        Request::KillJob { job } => Asked::Act(Act::KillJob { job }),
        Request::KillFrame(place) => Asked::Act(Act::KillFrame(place)),
        Request::EatFrame(place) => Asked::Act(Act::EatFrame(place)),
        Request::RetryFrame(place) => Asked::Act(Act::RetryFrame(place)),
        Request::Tick => Asked::Act(Act::Tick),
        Request::List(query) => Asked::List(query),
    }
}
