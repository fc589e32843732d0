//! The line that adds a depend, and its reply.

ghost use Rattle.std.specs.Prelude.{◌≡◌, OnOk};
ghost use Rattle.cue_json.specs.View.{members_view};
ghost use Rattle.farm_lines.specs.declared.request.Request.TheVariants as request;
ghost use Rattle.farm_lines.specs.DependLines.{depend_at};
ghost use Rattle.farm_lines.specs.Reply.{depend_data};
ghost use Rattle.farm_lines.specs.Request.{asked};
ghost use Rattle.report_codec.specs.Reads.{IsRequest};
ghost use Rattle.object_writer.specs.Tokens.{added, tokens_of};

use cue_json::Map;
use farm_lines::{Request, RequestFault};
use farm_types::DependNo;
use object_writer::ObjectWriter;
use std::alloc::{AllocError, Global};

/// The depend that the object adds, or its first fault.
pub fn read_depend(alloc: Global, object: &Map) -> Result<Request, RequestFault>
    ensures { IsRequest result (asked request.Depend (depend_at (members_view object.now.items))) }
{
    let depend = job_spec::read_depend(alloc, object)?;
    Ok(Request::Depend(depend))
}

/// The reply to it: the depend's number, and how many frames wait in those of its groups that aren't met.
#[tactic(auto, unfolding(farm_lines::specs::Reply::depend_data))]
pub fn write_depend(out: &mut ObjectWriter, depend: DependNo, unmet: u32) -> Result<(), AllocError>
    ensures { OnOk result (out.new ≡ added out.old (tokens_of (depend_data depend unmet))) }
{
    out.begin_object()?;
    out.whole("depend", u64::from(depend.0))?;
    out.truth("ok", true)?;
    out.whole("unmet", u64::from(unmet))?;
    out.end_object()
}
