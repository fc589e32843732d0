//! The daemon's life.

ghost use Rattle.std.specs.Prelude.{◌≡◌, ◌≤◌, true, not, filter, IfOk, OnOk, OnErr};
ghost use Rattle.std.specs.Vec.{vec_capacity};
ghost use Rattle.std.specs.List.{IsDistinct};
ghost use Rattle.farm_types.specs.Run as runs;
ghost use Rattle.farm_lines.specs.ReplyLines.{reply_of};
ghost use Rattle.rqd_core.specs.Keeping.{AreStarted, ComesTo};
ghost use Rattle.rqd_core.specs.Life.{after_end, after_line, attempts_of, cores_of, is_run, line_of, new_life, without};
ghost use Rattle.rqd_core.specs.Replies.{take_line};

use crate::config::RqdConfig;
use crate::orders::{Orders, RqdFault};
use crate::running::{Running, is_same};
use crate::sent_line::SentLine;
use crate::taking::done_item;
use farm_types::{Attempt, DoneItem, Exit, Items, Text};
use std::alloc::{AllocError, Global};
use std::marker::Model;
use std::mem;

/// One life of the daemon on a render host. It starts nothing itself: it says what is to be started and stopped, and is told what has ended.
#[derive(Debug, Drop)]
pub struct Rqd {
    pub(crate) config: RqdConfig,
    pub(crate) running: Vec<Running>,
    // The attempts of the running list, in its order.
    pub(crate) attempts: Items<Attempt>,
    // With room for the end of each running attempt.
    pub(crate) finished: Vec<DoneItem>,
    pub(crate) boot: Option<u32>,
    pub(crate) seq: u64,
    pub(crate) awaited: Option<SentLine>,
}

impl Model for Rqd {
    ghost use Rattle.rqd_core.specs.Life as types;

    ghost Value = { types.Life };

    ghost use Rattle.rqd_core.specs.Keeping.{life_of, KeepsLife};

    ghost view = { life_of };

    ghost invariant = { KeepsLife };
}

impl Rqd {
    /// A life that begins: nothing runs, and nothing was sent.
    pub fn make(alloc: Global, config: RqdConfig) -> Result<Rqd, AllocError>
        ensures { IfOk result (λ rqd. rqd ≡ new_life config) }
    {
        Ok(Rqd {
            config,
            running: Vec::new(alloc),
            attempts: Items::new(alloc),
            finished: Vec::new(alloc),
            boot: None,
            seq: 0,
            awaited: None,
        })
    }

    /// The next line, without a newline: the boot line until a boot was answered, then a report with the next sequence number. Once no greater one is left it is
    /// the boot line for ever. Its reply is awaited from then on.
    pub fn next_line(&mut self, alloc: Global) -> Result<Text, AllocError>
        ensures line { IfOk result (λ line. line ≡ line_of self.old) }
        ensures sent { OnOk result (self.new ≡ after_line self.old) }
        ensures kept { OnErr result (self.new ≡ self.old) }
    {
        match self.report_boot() {
            None => self.send_boot(alloc),
            Some(boot) => self.send_report(alloc, boot),
        }
    }

    /// What a line that came orders. Only the first reply to the latest line is acted on: acknowledged completions leave the finished list, kills of running attempts are
    /// to be stopped, and launches are to be started, or are finished where they don't fit. A stopped attempt runs until it has ended.
    pub fn take_reply(&mut self, alloc: Global, line: &[u8]) -> Result<Orders, RqdFault>
        ensures taken { ComesTo self.old (take_line self.old line.now) result self.new }
        ensures started { IfOk result (λ orders. AreStarted orders.starts self.new.running) }
    {
        let _config = &self.config;
        self.take_line(alloc, line)
    }

    /// The attempts that run, in the order in which they joined. It takes no memory.
    pub fn running(&self) -> &Items<Attempt>
        ensures value { result.now ≡ attempts_of self.now.running }
        ensures differ { IsDistinct runs.is_same result.now }
        ensures cores { cores_of self.now.running ≤ self.now.config.cores }
    {
        &self.attempts
    }

    /// Tells that a running attempt has ended. It takes no memory.
    pub fn ended(&mut self, attempt: Attempt, exit: Exit)
        requires { is_run attempt self.old.running ≡ true }
        ensures { self.new ≡ after_end self.old attempt exit }
    {
        let none = Items::new(*self.running.allocator());
        take_out(&mut self.running, &attempt);
        let attempts = mem::replace(&mut self.attempts, none);
        self.attempts = others(attempts, &attempt);
        self.finished.push_reserved(done_item(&attempt, exit, None));
    }
}

// The attempt isn't one of these any more.
fn take_out(running: &mut Vec<Running>, attempt: &Attempt)
    ensures items { running.new.items ≡ without attempt.now running.old.items }
    ensures capacity { vec_capacity running.new ≡ vec_capacity running.old }
{
    running.retain(|run| !run.is(attempt));
}

// The attempts but this one.
fn others(attempts: Items<Attempt>, attempt: &Attempt) -> Items<Attempt>
    ensures { result ≡ filter (λ a. not (runs.is_same a attempt.now)) attempts }
{
    let mut attempts = attempts.into_vec();
    attempts.retain(|other| !is_same(other, attempt));
    Items::from_vec(attempts)
}
