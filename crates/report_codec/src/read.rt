//! Reading a line as a request.

ghost use Rattle.std.specs.Prelude.{Err, IfOk, None};
ghost use Rattle.cue_json.specs.View.{members_view};
ghost use Rattle.farm_lines.specs.Request.{by_op, request_at, request_in, request_of};
ghost use Rattle.report_codec.specs.Reads.{AsksWithin, IsRequest};

use crate::alloc_line::read_alloc;
use crate::boot_line::read_boot;
use crate::depend_line::read_depend;
use crate::drop_line::read_drop;
use crate::limit_line::read_limit;
use crate::list_line::read_list;
use crate::lock_line::read_lock;
use crate::operator_line::{read_eat, read_kill, read_pause, read_retry};
use crate::report_line::read_report;
use crate::show_line::read_show;
use crate::sub_line::read_sub;
use crate::submit_line::read_submit;
use crate::tick_line::read_tick;
use cue_json::{FieldFault, LineFault, Map};
use farm_lines::{Request, RequestFault};
use farm_types::Text;
use json::Scratch;
use std::alloc::Global;

/// What the line asks, or its first fault. What is asked is within the forms and limits of its act. Texts with escapes are read into the scratch, which is
/// kept from line to line.
#[tactic(auto, unfolding(farm_lines::specs::Request::request_of))]
pub fn read_request(
    alloc: Global,
    line: &[u8],
    scratch: &mut Scratch,
) -> Result<Request, RequestFault>
    ensures gives { IsRequest result (request_of line.now) }
    ensures limits { IfOk result AsksWithin }
{
    match cue_json::object_of(alloc, line, scratch) {
        Ok(object) => request(alloc, &object),
        Err(LineFault::NotAnObject) => Err(no_object(alloc)),
        Err(LineFault::NoMemory) => Err(RequestFault::NoMemory),
    }
}

// The fault of a line that is no object: the empty field.
fn no_object(alloc: Global) -> RequestFault
    ensures { IsRequest (Err result) (request_in None) }
{
    match Text::from_str(alloc, "") {
        Ok(field) => RequestFault::BadLine { field },
        Err(_) => RequestFault::NoMemory,
    }
}

// The request that the object is.
fn request(alloc: Global, object: &Map) -> Result<Request, RequestFault>
    ensures { IsRequest result (request_at (members_view object.now.items)) }
{
    let op = cue_json::text(alloc, object, "op")?;
    request_by_op(alloc, object, op)
}

// The request that `op` names.
fn request_by_op(alloc: Global, object: &Map, op: &str) -> Result<Request, RequestFault>
    ensures { IsRequest result (by_op (members_view object.now.items) op.now) }
{
    match op {
        "boot" => read_boot(alloc, object),
        "report" => read_report(alloc, object),
        "show" => read_show(alloc, object),
        "alloc" => read_alloc(alloc, object),
        "sub" => read_sub(alloc, object),
        "limit" => read_limit(alloc, object),
        "host" => read_lock(alloc, object),
        "submit" => read_submit(alloc, object),
        "depend" => read_depend(alloc, object),
        "drop" => read_drop(alloc, object),
        "pause" => read_pause(alloc, object, true),
        "resume" => read_pause(alloc, object, false),
        "kill" => read_kill(alloc, object),
        "eat" => read_eat(alloc, object),
        "retry" => read_retry(alloc, object),
        "tick" => read_tick(alloc, object),
        "list" => read_list(alloc, object),
        _ => Err(RequestFault::from(FieldFault::wrong_kind(alloc, "op"))),
    }
}
