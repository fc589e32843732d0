//! The machine's files.

ghost use Rattle.std.specs.Prelude.{◌≡◌, ◌↔◌, None};

use crate::program::{SpecFault, SpecFiles};
use farm_types::Text;
use std::alloc::Global;
use std::fs;
use std::io::ErrorKind;
use std::rt::Runtime;

/// Reads files as texts. It tells nothing of the files that it was asked for.
#[derive(Drop)]
pub struct DiskFiles<R> {
    rt: R,
}

impl<R> DiskFiles<R> {
    pub fn make(rt: R) -> DiskFiles<R> {
        DiskFiles { rt }
    }
}

impl<R: Runtime + AllocGlobal + Drop> SpecFiles for DiskFiles<R> {
    ghost opened = { λ _. None };

    fn read(&mut self, _alloc: Global, file: &str) -> Result<Text, SpecFault> {
        match fs::read_to_string(&self.rt, file) {
            Ok(text) => Ok(Text::from_string(text)),
            Err(error) => Err(fault_of(error.kind())),
        }
    }
}

// Why a file gave no text.
fn fault_of(kind: ErrorKind) -> SpecFault
    ensures { (result ≡ SpecFault.NoMemory) ↔ (kind ≡ ErrorKind.OutOfMemory) }
{
    match kind {
        ErrorKind::OutOfMemory => SpecFault::NoMemory,
        _ => SpecFault::Unreadable,
    }
}
