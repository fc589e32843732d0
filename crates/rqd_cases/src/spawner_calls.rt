//! Calls of a spawner as lines.

use crate::attempts::attempt_text;
use farm_types::Exit;
use rqd_launcher::{SpawnAnswer, SpawnCall, SpawnTask};
use std::alloc::{AllocError, Global};

/// A line for each call, as `start 0/1 true -> done`.
pub fn call_lines(alloc: Global, calls: &[SpawnCall]) -> Result<String, AllocError> {
    let mut lines = String::new(alloc);
    for call in calls {
        lines.push_str(task_text(alloc, &call.task)?.as_str())?;
        lines.push_str(" -> ")?;
        lines.push_str(answer_text(alloc, call.answer)?.as_str())?;
        lines.push('\n')?;
    }
    Ok(lines)
}

// What is asked, as `poll 0/1`.
fn task_text(alloc: Global, task: &SpawnTask) -> Result<String, AllocError> {
    match task {
        SpawnTask::Start { attempt, command } => {
            let attempt = attempt_text(alloc, attempt)?;
            format!(in alloc; "start {attempt} {}", command.as_str())
        }
        SpawnTask::Poll { attempt } => {
            let attempt = attempt_text(alloc, attempt)?;
            format!(in alloc; "poll {attempt}")
        }
        SpawnTask::Stop { attempt } => {
            let attempt = attempt_text(alloc, attempt)?;
            format!(in alloc; "stop {attempt}")
        }
    }
}

// What is answered, as `ended 0/0`.
fn answer_text(alloc: Global, answer: SpawnAnswer) -> Result<String, AllocError> {
    match answer {
        SpawnAnswer::Done => String::from_str(alloc, "done"),
        SpawnAnswer::Running => String::from_str(alloc, "running"),
        SpawnAnswer::Ended { exit } => ended_text(alloc, exit),
        SpawnAnswer::Failed => String::from_str(alloc, "failed"),
    }
}

fn ended_text(alloc: Global, exit: Exit) -> Result<String, AllocError> {
    format!(in alloc; "ended {}/{}", exit.status, exit.signal)
}
