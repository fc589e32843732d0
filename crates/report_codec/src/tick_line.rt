//! A tick, and its reply.

ghost use Rattle.std.specs.Prelude.{◌≡◌, OnOk};
ghost use Rattle.cue_json.specs.View.{members_view};
ghost use Rattle.cue_json.specs.Fields.{others_at};
ghost use Rattle.farm_lines.specs.Reply.{tick_data};
ghost use Rattle.farm_lines.specs.Request.{asked, asks_tick, tick_keys};
ghost use Rattle.report_codec.specs.Reads.{IsRequest};
ghost use Rattle.object_writer.specs.Tokens.{added, tokens_of};

use cue_json::Map;
use farm_lines::{Request, RequestFault};
use object_writer::ObjectWriter;
use std::alloc::{AllocError, Global};

/// A tick, which has no field but `op`, or its first fault.
pub fn read_tick(alloc: Global, object: &Map) -> Result<Request, RequestFault>
    ensures { IsRequest result (asked asks_tick (others_at tick_keys (members_view object.now.items))) }
{
    cue_json::no_others(alloc, object, &["op"])?;
    Ok(Request::Tick)
}

/// The reply to a tick: how many hosts went down, and how many attempts were lost.
#[tactic(auto, unfolding(farm_lines::specs::Reply::tick_data))]
pub fn write_tick(out: &mut ObjectWriter, down: u32, lost: u32) -> Result<(), AllocError>
    ensures { OnOk result (out.new ≡ added out.old (tokens_of (tick_data down lost))) }
{
    out.begin_object()?;
    out.whole("down", u64::from(down))?;
    out.whole("lost", u64::from(lost))?;
    out.truth("ok", true)?;
    out.end_object()
}
