//! Writing a reply.

ghost use Rattle.std.specs.Prelude.{◌≡◌, IfOk, OnOk};
ghost use Rattle.farm_lines.specs.declared.reply.Reply.TheVariants as replies;
ghost use Rattle.farm_lines.specs.Reply.{done_data, reply_data, reply_text};
ghost use Rattle.object_writer.specs.Tokens.{added, tokens_of};

use crate::boot_line::write_boot;
use crate::depend_line::write_depend;
use crate::drop_line::write_dropped;
use crate::fault_reply::{
    write_bad_amount, write_bad_line, write_bad_range, write_entries_full, write_no_memory,
    write_still_held, write_store_fault, write_too_long,
};
use crate::limit_line::write_limit;
use crate::list_reply::write_list;
use crate::operator_line::write_ended;
use crate::refusal_reply::write_refusal;
use crate::report_line::write_report;
use crate::sub_line::write_sub;
use crate::submit_line::write_submitted;
use crate::tick_line::write_tick;
use farm_lines::{Reply, ReportReply};
use farm_types::Items;
use object_writer::ObjectWriter;
use std::alloc::{AllocError, Global};

/// The bytes of the reply as compact JSON, its keys in byte order, without a newline.
#[tactic(auto, using(object_writer::proofs::Printed::data_printed))]
pub fn write_reply(alloc: Global, reply: &Reply) -> Result<Items<u8>, AllocError>
    ensures { IfOk result (λ bytes. bytes ≡ reply_text reply.now) }
{
    let mut out = ObjectWriter::new(alloc)?;
    write_object(alloc, &mut out, reply)?;
    Ok(out.into_bytes())
}

// The reply as an object, its keys in byte order. Amounts of cores are in hundredths of a core.
fn write_object(alloc: Global, out: &mut ObjectWriter, reply: &Reply) -> Result<(), AllocError>
    ensures { OnOk result (out.new ≡ added out.old (tokens_of (reply_data reply.now))) }
{
    match reply {
        Reply::Done => write_done(out),
        Reply::Sub {
            booked,
            burst,
            size,
        } => write_sub(out, *booked, *burst, *size),
        Reply::Limit { most, running } => write_limit(out, *most, *running),
        Reply::Boot { boot, nonce } => write_boot(out, *boot, *nonce),
        Reply::Tick { down, lost } => write_tick(out, *down, *lost),
        Reply::Submitted { frames, job } => write_submitted(out, *frames, job.as_str()),
        Reply::Depend { depend, unmet } => write_depend(out, *depend, *unmet),
        Reply::Dropped { opened } => write_dropped(out, *opened),
        Reply::Ended { ended } => write_ended(out, *ended),
        Reply::Report(report) => write_report_whole(alloc, out, report),
        Reply::List(list) => write_list(out, list),
        Reply::BadLine { field } => write_bad_line(out, field.as_str()),
        Reply::TooLong => write_too_long(out),
        Reply::BadRange { layer, fault } => write_bad_range(out, layer.as_str(), *fault),
        Reply::BadAmount { field } => write_bad_amount(out, field.as_str()),
        Reply::Refused(why) => write_refusal(out, why),
        Reply::StillHeld { cores, memory } => write_still_held(out, *cores, *memory),
        Reply::EntriesFull => write_entries_full(out),
        Reply::Store => write_store_fault(out),
        Reply::NoMemory => write_no_memory(out),
    }
}

// The reply to a report, as it is held.
fn write_report_whole(
    alloc: Global,
    out: &mut ObjectWriter,
    report: &ReportReply,
) -> Result<(), AllocError>
    ensures { OnOk result (out.new ≡ added out.old (tokens_of (reply_data (replies.Report report.now)))) }
{
    write_report(
        alloc,
        out,
        report.acks.as_slice(),
        report.boot,
        report.cut,
        report.kills.as_slice(),
        &report.launches,
        report.seq,
    )?;
    Ok(())
}

// Done, with nothing to tell.
#[tactic(auto, unfolding(farm_lines::specs::Reply::done_data))]
fn write_done(out: &mut ObjectWriter) -> Result<(), AllocError>
    ensures { OnOk result (out.new ≡ added out.old (tokens_of done_data)) }
{
    out.begin_object()?;
    out.truth("ok", true)?;
    out.end_object()
}
