//! Where a step is taken.

use std::alloc::{AllocError, Global};
use store_work::{Work, work_over_file};

/// The path of a step, in the folder of its case.
#[derive(Clone, Copy)]
pub struct Place<'a> {
    pub rt: &'a HostRuntime,
    pub folder: &'a str,
    pub path: &'a str,
}

impl Place<'_> {
    pub fn alloc(self) -> Global {
        self.rt.alloc()
    }

    /// Works over the keeper of the file at the path, and says whether there was one. Where there is none, what is wrong is told.
    pub fn work<W: Work>(self, work: &mut W, came: &mut Vec<u8>) -> Result<bool, AllocError> {
        match work_over_file(self.rt, self.path, work) {
            Ok(()) => Ok(true),
            Err(fault) => {
                let line = format!(in self.rt.alloc(); "{fault}")?;
                tell(came, line.as_str())?;
                Ok(false)
            }
        }
    }
}

/// Adds a line to what came.
pub fn tell(came: &mut Vec<u8>, line: &str) -> Result<(), AllocError> {
    came.extend_from_slice(line.as_bytes())?;
    came.push(b'\n')?;
    Ok(())
}
