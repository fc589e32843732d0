//! The lines that a life sends.

ghost use Rattle.std.specs.Prelude.{◌≡◌, ℕ, None, Some, IfOk, OnOk, OnErr};
ghost use Rattle.farm_lines.specs.RequestText.{request_text};
ghost use Rattle.farm_lines.specs.declared.request.Request.TheVariants as request;
ghost use Rattle.rqd_core.specs.Keeping.{CanSend};
ghost use Rattle.rqd_core.specs.Life.{boot_of, report_boot, report_of, request_from, sent_with};

use crate::config::RqdConfig;
use crate::limits::LAST_SEQ;
use crate::rqd::Rqd;
use crate::sent_line::SentLine;
use client_codec::write_request;
use farm_lines::{Report, Request};
use farm_types::{BootLine, HeardAct, Items, Text};
use std::alloc::{AllocError, Global};

impl Rqd {
    // The boot number of the next report; none where the next line is a boot line.
    pub(crate) fn report_boot(&self) -> Option<u32>
        ensures value { result ≡ report_boot self.now }
        ensures sends { (boot : ℕ) → result ≡ Some boot → CanSend self.now }
    {
        if self.seq == LAST_SEQ {
            return None;
        }
        self.boot
    }

    // The boot line, which awaits its reply from then on.
    pub(crate) fn send_boot(&mut self, alloc: Global) -> Result<Text, AllocError>
        ensures line { IfOk result (λ line. line ≡ request_text (request_from self.old None)) }
        ensures sent { OnOk result (self.new ≡ sent_with self.old None) }
        ensures kept { OnErr result (self.new ≡ self.old) }
    {
        let line = boot_text(alloc, &self.config)?;
        self.awaited = Some(SentLine::Boot);
        Ok(line)
    }

    // The report with the next sequence number, which awaits its reply from then on.
    pub(crate) fn send_report(&mut self, alloc: Global, boot: u32) -> Result<Text, AllocError>
        requires { CanSend self.old }
        ensures line { IfOk result (λ line. line ≡ request_text (request_from self.old (Some boot))) }
        ensures sent { OnOk result (self.new ≡ sent_with self.old (Some boot)) }
        ensures kept { OnErr result (self.new ≡ self.old) }
    {
        let line = self.report_text(alloc, boot)?;
        self.seq += 1;
        self.awaited = Some(SentLine::Report {
            boot,
            seq: self.seq,
        });
        Ok(line)
    }

    fn report_text(&self, alloc: Global, boot: u32) -> Result<Text, AllocError>
        requires { CanSend self.now }
        ensures { IfOk result (λ text. text ≡ request_text (request_from self.now (Some boot))) }
    {
        let report = self.report(alloc, boot)?;
        text_of(alloc, Request::Report(report))
    }

    fn report(&self, alloc: Global, boot: u32) -> Result<Report, AllocError>
        requires { CanSend self.now }
        ensures { IfOk result (λ report. report ≡ report_of self.now boot) }
    {
        Ok(Report {
            heard: HeardAct {
                host: self.config.name.copy(alloc)?,
                boot,
                seq: self.seq + 1,
                done: Items::from_vec(Vec::from_slice(alloc, self.finished.as_slice())?),
            },
            running: self.attempts.copy(alloc)?,
        })
    }
}

fn boot_text(alloc: Global, config: &RqdConfig) -> Result<Text, AllocError>
    ensures { IfOk result (λ text. text ≡ request_text (request.Boot (boot_of config.now))) }
{
    let line = boot_line(alloc, config)?;
    text_of(alloc, Request::Boot(line))
}

fn boot_line(alloc: Global, config: &RqdConfig) -> Result<BootLine, AllocError>
    ensures { IfOk result (λ line. line ≡ boot_of config.now) }
{
    Ok(BootLine {
        host: config.name.copy(alloc)?,
        nonce: config.nonce,
        alloc: config.alloc.copy(alloc)?,
        tags: Items::new(alloc),
        cores: config.cores,
        memory: config.memory,
    })
}

// The text of a request, which is dropped.
fn text_of(alloc: Global, request: Request) -> Result<Text, AllocError>
    ensures { IfOk result (λ text. text ≡ request_text request) }
{
    write_request(alloc, &request)
}
