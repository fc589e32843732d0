//! Commands with their tokens replaced, names of frames, and texts of cores.

use case_text::{Calls, LineFault, unquoted};
use command_text::{expand, frame_name};
use farm_lines::read_cores;
use std::alloc::Global;

/// Calls for commands, names of frames and texts of cores.
#[derive(Clone, Copy, Debug, PartialEq, Eq)]
pub enum TextCall {
    Commands,
    FrameNames,
    Cores,
}

impl TextCall {
    /// All of them, in the order in which their files are read.
    pub const ALL: [TextCall; 3] = [TextCall::Commands, TextCall::FrameNames, TextCall::Cores];
}

impl Calls for TextCall {
    fn file_name(&self) -> &'static str {
        match self {
            TextCall::Commands => "commands.rows",
            TextCall::FrameNames => "frame_names.rows",
            TextCall::Cores => "cores.rows",
        }
    }

    fn answer(&self, alloc: Global, given: &str) -> Result<String, LineFault> {
        match self {
            TextCall::Commands => command(alloc, given),
            TextCall::FrameNames => named_frame(alloc, given),
            TextCall::Cores => cores(alloc, given),
        }
    }
}

// A command of a job, a layer and a number, as `echo #FRAME# by job layer 7`.
fn command(alloc: Global, given: &str) -> Result<String, LineFault> {
    let Some((command, by)) = given.rsplit_once(" by ") else {
        return Err(LineFault::Malformed);
    };
    let Some((job, rest)) = by.split_once(' ') else {
        return Err(LineFault::Malformed);
    };
    let Some((layer, number)) = rest.split_once(' ') else {
        return Err(LineFault::Malformed);
    };
    let Ok(number) = number.parse::<i32>() else {
        return Err(LineFault::Malformed);
    };
    let text = expand(alloc, unquoted(command), job, layer, number)?;
    Ok(format!(in alloc; "{}", text.as_str())?)
}

// The name of a frame by its number and its layer, as `7 render`.
fn named_frame(alloc: Global, given: &str) -> Result<String, LineFault> {
    let Some((number, layer)) = given.split_once(' ') else {
        return Err(LineFault::Malformed);
    };
    let Ok(number) = number.parse::<i32>() else {
        return Err(LineFault::Malformed);
    };
    let name = frame_name(alloc, number, layer)?;
    Ok(String::from_str(alloc, name.as_str())?)
}

// The hundredths of a core that a text says.
fn cores(alloc: Global, given: &str) -> Result<String, LineFault> {
    match read_cores(unquoted(given)) {
        Some(cores) => Ok(format!(in alloc; "{}", cores.0)?),
        None => Ok(String::from_str(alloc, "none")?),
    }
}
