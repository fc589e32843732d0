//! The text of what is told of a report.

ghost use Rattle.std.specs.Prelude.{◌≡◌, IfOk, false};
ghost use Rattle.farm_lines.specs.declared.reply.Reply.{Reply};
ghost use Rattle.line_answers.specs.Told.{Reports, Tells, is_report};
ghost use Rattle.world_answers.specs.Reporting.{HasText};

use crate::trying::without_newline;
use farm_lines::Reply;
use farm_types::{Cut, Items};
use line_answers::{ReportLine, Told};
use report_codec::write_reply;
use std::alloc::{AllocError, Global};

/// The text of what is told of a report. The only error is that memory ran out, for the reply or its round too.
pub(crate) fn told_text(alloc: Global, told: Told) -> Result<Items<u8>, AllocError>
    ensures { IfOk result (λ text. (reply : Reply) → Tells told reply → HasText reply text) }
{
    match told {
        Told::Reported(line) => line_text(alloc, line),
        Told::Other(reply) => other_text(alloc, &reply),
    }
}

// The text of the reply to a report that was recorded.
fn line_text(alloc: Global, line: ReportLine) -> Result<Items<u8>, AllocError>
    ensures { IfOk result (λ text. (reply : Reply) → Reports line reply → HasText reply text) }
{
    if line.cut == Cut::Memory {
        return Err(AllocError);
    }
    Ok(Items::from_vec(Vec::from_slice(alloc, without_newline(line.text.as_slice()))?))
}

// The text of another reply.
fn other_text(alloc: Global, reply: &Reply) -> Result<Items<u8>, AllocError>
    ensures { IfOk result (λ text. is_report reply.now ≡ false → HasText reply.now text) }
{
    if let Reply::NoMemory = reply {
        return Err(AllocError);
    }
    write_reply(alloc, reply)
}
