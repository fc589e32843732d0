//! What replies do to a life.

ghost use Rattle.std.specs.Prelude.{◌≡◌, Ok, IfOk, OnErr};
ghost use Rattle.rqd_core.specs.Keeping.{ComesTo};
ghost use Rattle.rqd_core.specs.Replies.{after_refusal, after_report, after_why, answered, code_of, is_of_boot, is_of_report, no_orders, take_boot, take_line, take_other, take_reply, take_report, take_short};

use crate::codes::code_of;
use crate::orders::{Orders, RqdFault};
use crate::planned::plan;
use crate::rqd::Rqd;
use crate::sent_line::SentLine;
use client_codec::{ReplyFault, read_reply};
use farm_lines::{Reply, ReportReply};
use farm_types::{Items, Refusal};
use json::Scratch;
use std::alloc::{AllocError, Global};

impl Rqd {
    // What a line orders.
    pub(crate) fn take_line(&mut self, alloc: Global, line: &[u8]) -> Result<Orders, RqdFault>
        ensures { ComesTo self.old (take_line self.old line.now) result self.new }
    {
        let mut scratch = Scratch::new(alloc);
        match read_reply(alloc, line, &mut scratch) {
            Ok(reply) => self.take(alloc, reply),
            Err(ReplyFault::NotAReply) => Err(RqdFault::NotAReply),
            Err(ReplyFault::NoMemory) => Err(RqdFault::NoMemory),
        }
    }

    // What a reply orders.
    fn take(&mut self, alloc: Global, reply: Reply) -> Result<Orders, RqdFault>
        ensures { ComesTo self.old (take_reply self.old reply) result self.new }
    {
        match reply {
            Reply::Report(report) => self.take_report(alloc, report),
            other => self.take_short(alloc, &other),
        }
    }

    fn take_report(&mut self, alloc: Global, report: ReportReply) -> Result<Orders, RqdFault>
        ensures { ComesTo self.old (take_report self.old report) result self.new }
    {
        if is_of_report(&report, self.awaited) {
            Ok(self.follow(alloc, report)?)
        } else {
            Err(RqdFault::NotLatest { seq: report.seq })
        }
    }

    // Follows the reply to the latest report.
    fn follow(&mut self, alloc: Global, report: ReportReply) -> Result<Orders, AllocError>
        ensures life { IfOk result (λ orders. self.new ≡ (after_report (answered self.old) report).life) }
        ensures told { IfOk result (λ orders. (after_report (answered self.old) report).told ≡ Ok orders) }
        ensures kept { OnErr result (self.new ≡ self.old) }
    {
        let planned = plan(alloc, self, report)?;
        Ok(self.install(planned))
    }

    fn take_short(&mut self, alloc: Global, reply: &Reply) -> Result<Orders, RqdFault>
        ensures { ComesTo self.old (take_short self.old reply.now) result self.new }
    {
        match reply {
            Reply::Boot { boot, nonce } => self.take_boot(alloc, *boot, *nonce),
            _ => self.take_other(reply),
        }
    }

    fn take_boot(&mut self, alloc: Global, boot: u32, nonce: u64) -> Result<Orders, RqdFault>
        ensures { ComesTo self.old (take_boot self.old boot nonce) result self.new }
    {
        if !is_of_boot(self.config.nonce, nonce, self.awaited) {
            return Err(RqdFault::NotLatest { seq: 0 });
        }
        self.awaited = None;
        self.boot = Some(boot);
        Ok(no_orders(alloc))
    }

    fn take_other(&mut self, reply: &Reply) -> Result<Orders, RqdFault>
        ensures { ComesTo self.old (take_other self.old reply.now (code_of reply.now)) result self.new }
    {
        let Some(code) = code_of(reply) else {
            return Err(RqdFault::NotLatest { seq: 0 });
        };
        let Some(_line) = self.awaited else {
            return Err(RqdFault::NotLatest { seq: 0 });
        };
        self.awaited = None;
        self.note_refusal(reply);
        Err(RqdFault::Refused { code })
    }

    fn note_refusal(&mut self, reply: &Reply)
        ensures { self.new ≡ after_refusal self.old reply.now }
    {
        if let Reply::Refused(why) = reply {
            self.note_why(why);
        }
    }

    fn note_why(&mut self, why: &Refusal)
        ensures { self.new ≡ after_why self.old why.now }
    {
        match why {
            Refusal::Unknown { .. } => self.boot = None,
            Refusal::WrongBoot { .. } => self.boot = None,
            Refusal::Stale { last } => self.seq = self.seq.max(*last),
            _ => {}
        }
    }
}

// Whether it is the reply to the report that awaits one.
fn is_of_report(report: &ReportReply, awaited: Option<SentLine>) -> bool
    ensures { result ≡ is_of_report report.now awaited }
{
    match awaited {
        Some(SentLine::Report { boot, seq }) => report.boot == boot && report.seq == seq,
        _ => false,
    }
}

// Whether the nonce that is told is the reply to the boot that awaits one.
fn is_of_boot(nonce: u64, told: u64, awaited: Option<SentLine>) -> bool
    ensures { result ≡ is_of_boot nonce told awaited }
{
    match awaited {
        Some(SentLine::Boot) => told == nonce,
        _ => false,
    }
}

fn no_orders(alloc: Global) -> Orders
    ensures { result ≡ no_orders }
{
    Orders {
        starts: Items::new(alloc),
        stops: Items::new(alloc),
        refused: Items::new(alloc),
    }
}
