//! The line that locks or opens a host.

ghost use Rattle.cue_json.specs.View.{members_view};
ghost use Rattle.cue_json.specs.Fields.{Gives};
ghost use Rattle.farm_lines.specs.Request.{asked, asks_lock, lock_line_at};
ghost use Rattle.report_codec.specs.Reads.{IsRequest};

use cue_json::{FieldFault, Map};
use farm_lines::{Request, RequestFault, read_name};
use farm_types::{LockState, Text};
use state_names::read_word;
use std::alloc::Global;

/// The host whose lock the object sets, or its first fault.
pub fn read_lock(alloc: Global, object: &Map) -> Result<Request, RequestFault>
    ensures { IsRequest result (asked asks_lock (lock_line_at (members_view object.now.items))) }
{
    let (host, lock) = lock_line(alloc, object)?;
    Ok(Request::Lock { host, lock })
}

// The host's name and its lock, and no others.
#[tactic(auto, unfolding(farm_lines::specs::Request::lock_line_at))]
fn lock_line(alloc: Global, object: &Map) -> Result<(Text, LockState), FieldFault>
    ensures { Gives (λ line. record { host = line.0; lock = line.1 }) result (lock_line_at (members_view object.now.items)) }
{
    let host = read_name(alloc, object, "host")?;
    let lock = read_word(alloc, object, "lock")?;
    cue_json::no_others(alloc, object, &["host", "lock", "op"])?;
    Ok((host, lock))
}
