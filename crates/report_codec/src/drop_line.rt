//! The line that drops a depend, and its reply.

ghost use Rattle.std.specs.Prelude.{◌≡◌, OnOk};
ghost use Rattle.cue_json.specs.View.{members_view};
ghost use Rattle.cue_json.specs.Fields.{Gives};
ghost use Rattle.farm_lines.specs.declared.request.Request.TheVariants as request;
ghost use Rattle.farm_lines.specs.Reply.{dropped_data};
ghost use Rattle.farm_lines.specs.Request.{asked, drop_at};
ghost use Rattle.report_codec.specs.Reads.{IsRequest};
ghost use Rattle.object_writer.specs.Tokens.{added, tokens_of};

use cue_json::{FieldFault, Map};
use farm_lines::{Request, RequestFault};
use farm_types::{DependNo, LAST_DEPEND};
use object_writer::ObjectWriter;
use std::alloc::{AllocError, Global};

/// The depend that the object drops, or its first fault.
pub fn read_drop(alloc: Global, object: &Map) -> Result<Request, RequestFault>
    ensures { IsRequest result (asked request.Drop (drop_at (members_view object.now.items))) }
{
    let depend = depend_no(alloc, object)?;
    Ok(Request::Drop { depend })
}

// The depend's number, and no other field.
#[tactic(auto, unfolding(farm_lines::specs::Request::drop_at))]
fn depend_no(alloc: Global, object: &Map) -> Result<DependNo, FieldFault>
    ensures { Gives (λ depend. depend) result (drop_at (members_view object.now.items)) }
{
    let number = cue_json::whole(alloc, object, "depend", 1, u64::from(LAST_DEPEND))?;
    cue_json::no_others(alloc, object, &["depend", "op"])?;
    Ok(DependNo(number as u32))
}

/// The reply to it: how many frames wait for no other any more, and are ready to run.
#[tactic(auto, unfolding(farm_lines::specs::Reply::dropped_data))]
pub fn write_dropped(out: &mut ObjectWriter, opened: u32) -> Result<(), AllocError>
    ensures { OnOk result (out.new ≡ added out.old (tokens_of (dropped_data opened))) }
{
    out.begin_object()?;
    out.truth("ok", true)?;
    out.whole("opened", u64::from(opened))?;
    out.end_object()
}
