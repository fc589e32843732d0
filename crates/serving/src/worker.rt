//! What a worker keeps from one connection to the next.

ghost use Rattle.std.specs.Prelude.{◌≡◌};
ghost use mathlib.Core.List.{IsPrefix};
ghost use Rattle.shared_sessions.specs.shared_bot.specs.Passes.{IsFree};

use cue_io::{Clock, Sink, Source};
use farm_keeper::Keeper;
use shared_sessions::booking_recorder::Pass;
use shared_sessions::serve_one;
use shared_sessions::shared_bot::{Bot, Opened};
use shared_sessions::shared_rounds::Gate;
use std::alloc::Global;
use std::marker::Model;
use std::sync::Wait;

/// A worker: its gate, its clock, and its pass, which holds nothing between two connections.
#[derive(Drop)]
pub(crate) struct Worker<C: Clock, G: Gate, N: Opened> {
    gate: G,
    clock: C,
    pass: Pass<N>,
}

impl<C: Clock, G: Gate, N: Opened> Model for Worker<C, G, N> {
    ghost use Rattle.shared_sessions.specs.booking_recorder.specs.Passing.{Passing};
    ghost use Rattle.shared_sessions.specs.shared_bot.specs.Passes.{IsFree};

    ghost Value = { Passing };

    ghost view = { λ w. w.pass };

    ghost invariant = { λ w. IsFree N.opening w.pass.view };
}

impl<C: Clock, G: Gate, N: Opened> Worker<C, G, N> {
    /// A worker with a pass that holds nothing.
    pub fn make(gate: G, clock: C, pass: Pass<N>) -> Worker<C, G, N>
        requires { IsFree N.opening pass.view }
        ensures { result ≡ pass }
    {
        Worker { gate, clock, pass }
    }

    /// Answers the lines of one connection over what the workers share.
    pub fn serve<S: Source, W: Sink, K: Keeper, R: Wait>(
        &mut self,
        rt: &R,
        alloc: Global,
        bot: &Bot<K, N>,
        source: &mut S,
        sink: &mut W,
    )
        ensures { IsPrefix self.old.view.journal self.new.view.journal }
    {
        let _ended = serve_one(
            rt,
            alloc,
            bot,
            &mut self.pass,
            &mut self.gate,
            &mut self.clock,
            source,
            sink,
        );
    }
}
