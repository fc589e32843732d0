//! Ending a child program with all that it started.

use crate::faults::fault_of;
use crate::shell::end_shell;
use rqd_launcher::SpawnFault;
use std::alloc::Global;
use std::process::Processes;

/// Ends the process group of that number, and says whether there was one.
pub(crate) fn end_group<R: Processes>(
    rt: &R,
    alloc: Global,
    group: u32,
) -> Result<bool, SpawnFault> {
    match end_shell(alloc, group)?.status(rt) {
        Ok(status) => Ok(status.success()),
        Err(error) => Err(fault_of(error.kind())),
    }
}
