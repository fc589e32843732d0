//! The memory that a boot needs.

ghost use Rattle.std.specs.Prelude.{◌≡◌, IfOk};

use crate::hosts::Hosts;
use farm_types::BootLine;
use std::alloc::{AllocError, Global};
use std::marker::Model;

/// The memory that was reserved for a boot, which contracts see as its line: the line's texts, and once more the host's name,
/// for the index of names.
#[derive(Debug, Drop)]
pub struct HostSpare {
    pub(crate) line: BootLine,
    pub(crate) name: String,
}

impl Model for HostSpare {
    ghost use Rattle.farm_types.specs.declared.boot.BootLine as boot;
    ghost use Rattle.std.specs.Prelude.{◌≡◌, string_bytes};

    ghost Value = { boot.BootLine };

    ghost view = { λ reserved. reserved.line };

    ghost invariant = { λ reserved. string_bytes reserved.name ≡ reserved.line.host };
}

impl Hosts {
    /// Takes the memory that the boot needs. The book is as before.
    pub fn reserve(&mut self, alloc: Global, boot: &BootLine) -> Result<HostSpare, AllocError>
        ensures book { self.new ≡ self.old }
        ensures reserved { IfOk result (λ reserved. reserved ≡ boot.now) }
    {
        Ok(HostSpare {
            name: String::from_str(alloc, boot.host.as_str())?,
            line: boot.copy(alloc)?,
        })
    }
}
