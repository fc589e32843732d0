//! Tests of the trusted edges: what no clause says of readers, writers and clocks of std under `cue_io`, of command lines
//! under `command_line`, of connections under `dialer`, of files under `cue_tool`, and of child programs and rests under
//! `child_spawner`.
#![tactic(auto)]

#[cfg(test)]
mod children;
#[cfg(test)]
mod clocks;
#[cfg(test)]
mod command_lines;
#[cfg(test)]
mod files;
#[cfg(test)]
mod readers;
#[cfg(test)]
mod rests;
#[cfg(test)]
mod streams;
#[cfg(test)]
mod writers;
