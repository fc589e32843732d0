//! A render host.

ghost use Rattle.std.specs.Prelude.{◌≡◌, ◌==◌, true, IfOk, OnErr, OnOk};
ghost use Rattle.std.specs.List.{list_any};
ghost use Rattle.farm_types.specs.Run.{is_same};
ghost use Rattle.rqd_core.specs.Life.{is_run, line_of};
ghost use Rattle.world_law.specs.Hosts.{after_exit, after_send, after_told, has_used, reborn};
ghost use Rattle.world_law.specs.World.{new_host};

use crate::config::{copy_config, with_nonce};
use crate::starts::take_line;
use farm_types::{Attempt, Exit, Items, Text};
use rqd_core::{Rqd, RqdConfig};
use std::alloc::{AllocError, Global};
use std::marker::Model;
use std::mem;

/// A render host: the present life of its daemon, the nonces that it has used, the present one too, and the attempts
/// that this life was told to start, in order.
#[derive(Debug, Drop)]
pub struct Host {
    // That of the present life.
    config: RqdConfig,
    rqd: Rqd,
    nonces: Items<u64>,
    started: Items<Attempt>,
}

impl Model for Host {
    ghost use Rattle.world_law.specs.World as types;

    ghost Value = { types.Host };

    ghost use Rattle.world_host.specs.Inside.{KeepsHost, host_of};

    ghost view = { host_of };

    ghost invariant = { KeepsHost };
}

impl Host {
    /// A host in its first life.
    pub fn make(alloc: Global, config: RqdConfig) -> Result<Host, AllocError>
        ensures { IfOk result (λ host. host ≡ new_host config) }
    {
        let mut nonces = Items::new(alloc);
        nonces.push(config.nonce)?;
        let own = copy_config(alloc, &config)?;
        Ok(Host {
            config,
            rqd: Rqd::make(alloc, own)?,
            nonces,
            started: Items::new(alloc),
        })
    }

    /// Its next line is sent, and it awaits the reply.
    pub fn send(&mut self, alloc: Global) -> Result<Text, AllocError>
        ensures line { IfOk result (λ line. line ≡ line_of self.old.life) }
        ensures sent { OnOk result (self.new ≡ after_send self.old) }
        ensures kept { OnErr result (self.new ≡ self.old) }
    {
        self.rqd.next_line(alloc)
    }

    /// A line comes to it. Where its daemon acts on none, only that is known. The only error is that memory ran out.
    pub fn take(&mut self, alloc: Global, line: &[u8]) -> Result<(), AllocError>
        ensures taken { OnOk result (self.new ≡ after_told self.old line.now) }
        ensures kept { OnErr result (self.new ≡ self.old) }
    {
        let mut started = mem::replace(&mut self.started, Items::new(alloc)).into_vec();
        let taken = take_line(alloc, &mut self.rqd, &mut started, line);
        self.started = Items::from_vec(started);
        taken
    }

    /// Whether it runs the attempt.
    pub fn is_running(&self, attempt: &Attempt) -> bool
        ensures { result ≡ is_run attempt.now self.now.life.running }
    {
        is_among(self.rqd.running().as_slice(), attempt)
    }

    /// A running attempt ends. It takes no memory.
    pub fn end(&mut self, attempt: Attempt, exit: Exit)
        requires { is_run attempt self.old.life.running ≡ true }
        ensures { self.new ≡ after_exit self.old attempt exit }
    {
        self.rqd.ended(attempt, exit);
    }

    /// Whether it has used the nonce.
    pub fn has_used(&self, nonce: u64) -> bool
        ensures { result ≡ has_used self.now nonce }
    {
        is_listed(self.nonces.as_slice(), nonce)
    }

    /// It begins a new life, in which nothing runs.
    pub fn begin_life(&mut self, alloc: Global, nonce: u64) -> Result<(), AllocError>
        ensures begun { OnOk result (self.new ≡ reborn self.old nonce) }
        ensures kept { OnErr result (self.new ≡ self.old) }
    {
        let config = with_nonce(alloc, &self.config, nonce)?;
        let rqd = Rqd::make(alloc, copy_config(alloc, &config)?)?;
        self.nonces.push(nonce)?;
        self.config = config;
        self.rqd = rqd;
        self.started = Items::new(alloc);
        Ok(())
    }

    /// The attempts that this life was told to start, in order.
    pub fn started(&self) -> &Items<Attempt>
        ensures { result.now ≡ self.now.started }
    {
        &self.started
    }
}

// Whether the attempt is one of these.
fn is_among(attempts: &[Attempt], attempt: &Attempt) -> bool
    ensures { result ≡ list_any (λ a. is_same a attempt.now) attempts.now }
{
    attempts.iter().any(|other| is_same(other, attempt))
}

// Whether both name one attempt.
fn is_same(a: &Attempt, b: &Attempt) -> bool
    ensures { result ≡ is_same a.now b.now }
{
    a.slot == b.slot && a.version == b.version
}

// Whether the nonce is one of these.
fn is_listed(nonces: &[u64], nonce: u64) -> bool
    ensures { result ≡ list_any (λ n. n == nonce) nonces.now }
{
    nonces.iter().any(|used| *used == nonce)
}
