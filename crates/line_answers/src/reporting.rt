//! The line of the reply to a report that was recorded, written over the farm as it is.

ghost use Rattle.std.specs.Prelude.{IfOk};
ghost use Rattle.farm_lines.specs.Reply.{report_reply};
ghost use Rattle.line_answers.specs.Launches.{told};
ghost use Rattle.line_answers.specs.Lines.{IsLineOf, shown};
ghost use Rattle.line_answers.specs.Told.{Reports};

use crate::launches::{DueLaunches, acks, kills};
use crate::reply_line::ReplyLine;
use crate::told::ReportLine;
use dispatcher::farm_core::Farm;
use farm_types::{Attempt, Cut, HeardAct, HostNo};
use report_codec::{WrittenReport, write_report_reply};
use std::alloc::{AllocError, Global};

/// The line of the reply to a report of the host that is recorded, once its round went and this cut it short; or that memory ran out.
pub fn report_line(
    alloc: Global,
    farm: &Farm,
    host: HostNo,
    heard: &HeardAct,
    running: &[Attempt],
    cut: Cut,
) -> ReplyLine
    ensures { IsLineOf (report_reply farm.now host (told heard.now running.now) cut) (shown result) }
{
    match write_report(alloc, farm, host, heard, running, cut) {
        Ok(line) => ReplyLine::Written(line.text),
        Err(_) => ReplyLine::NoMemory,
    }
}

/// That line, with the attempts that it launches.
pub(crate) fn write_report(
    alloc: Global,
    farm: &Farm,
    host: HostNo,
    heard: &HeardAct,
    running: &[Attempt],
    cut: Cut,
) -> Result<ReportLine, AllocError>
    ensures { IfOk result (λ line. Reports line (report_reply farm.now host (told heard.now running.now) cut)) }
{
    let acks = acks(alloc, heard.done.as_slice())?;
    let kills = kills(alloc, farm, host, heard.boot, running)?;
    let launches = DueLaunches {
        farm,
        host,
        heard,
        running,
    };
    let WrittenReport { bytes, launched } = write_report_reply(
        alloc,
        acks.as_slice(),
        heard.boot,
        cut,
        kills.as_slice(),
        &launches,
        heard.seq,
    )?;
    let mut text = bytes;
    text.push(b'\n')?;
    Ok(ReportLine {
        text,
        launched,
        cut,
    })
}
