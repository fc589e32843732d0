//! What spawners are asked and answer.

ghost use Rattle.std.specs.Prelude.{◌≡◌};
ghost use Rattle.rqd_launcher.specs.Calls.{polled};
ghost use Rattle.rqd_launcher.specs.Memory.{is_start_of};

use farm_types::{Attempt, Exit, Text};

/// What a spawner is asked: to start an attempt by a command, whether an attempt has ended, or to stop an attempt.
#[derive(Debug, Drop)]
pub enum SpawnTask {
    Start { attempt: Attempt, command: Text },
    Poll { attempt: Attempt },
    Stop { attempt: Attempt },
}

/// What it answers, where it finds memory: that a start or a stop is done, that a polled attempt hasn't ended, how it ended, or that the call failed.
#[derive(Clone, Copy, Debug, PartialEq, Eq)]
pub enum SpawnAnswer {
    Done,
    Running,
    Ended { exit: Exit },
    Failed,
}

/// A call of a spawner and its answer.
#[derive(Debug, Drop)]
pub struct SpawnCall {
    pub task: SpawnTask,
    pub answer: SpawnAnswer,
}

impl SpawnAnswer {
    // What a poll says of an attempt that ended so, or hasn't ended.
    pub(crate) fn of_poll(exit: &Option<Exit>) -> SpawnAnswer
        ensures { result ≡ polled exit.now }
    {
        match exit {
            Some(exit) => SpawnAnswer::Ended { exit: *exit },
            None => SpawnAnswer::Running,
        }
    }
}

impl SpawnCall {
    // Whether it started the attempt.
    pub(crate) fn is_start_of(&self, attempt: &Attempt) -> bool
        ensures { result ≡ is_start_of attempt.now self.now.task self.now.answer }
    {
        match (&self.task, self.answer) {
            (SpawnTask::Start { attempt: other, .. }, SpawnAnswer::Done) => attempt == other,
            _ => false,
        }
    }
}
