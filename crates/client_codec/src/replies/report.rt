//! The reply to a report.

ghost use Rattle.cue_json.specs.View.{members_view};
ghost use Rattle.cue_json.specs.Fields.{Gives};
ghost use Rattle.farm_lines.specs.ReplyLines.{report_reply_at};

use crate::replies::at_most::at_most;
use crate::replies::launch::LaunchReader;
use cue_json::{FieldFault, Map};
use farm_lines::{AttemptReader, LAUNCHES_EACH, Reply, ReportReply, read_list, read_whole};
use farm_types::LAST_BOOT;
use state_names::read_word;
use std::alloc::Global;

/// What a report is replied, or the first field at fault.
#[tactic(auto, unfolding(farm_lines::specs::ReplyLines::report_reply_at))]
pub fn read_report(alloc: Global, object: &Map) -> Result<Reply, FieldFault>
    ensures { Gives (λ reply. reply) result (report_reply_at (members_view object.now.items)) }
{
    let acks = read_list(alloc, object, "acks", &AttemptReader)?;
    let boot = read_whole(alloc, object, "boot", 1, LAST_BOOT)?;
    let cut = read_word(alloc, object, "cut")?;
    let kills = read_list(alloc, object, "kills", &AttemptReader)?;
    let launches = read_list(alloc, object, "launches", &LaunchReader)?;
    let launches = at_most(alloc, LAUNCHES_EACH, "launches", launches)?;
    let seq = cue_json::whole(alloc, object, "seq", 1, u64::MAX)?;
    cue_json::no_others(
        alloc,
        object,
        &["acks", "boot", "cut", "kills", "launches", "ok", "seq"],
    )?;
    Ok(Reply::Report(ReportReply {
        acks,
        boot,
        cut,
        kills,
        launches,
        seq,
    }))
}
