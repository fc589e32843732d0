//! The memory that a limit needs.

ghost use Rattle.std.specs.Prelude.{ℕ, List};

use farm_types::Text;
use std::marker::Model;

/// The memory that was reserved for a limit, which contracts see as its name.
#[derive(Debug, Drop)]
pub struct Spare {
    pub(crate) name: Text,
}

impl Model for Spare {
    ghost use Rattle.std.specs.Prelude.{ℕ, List};

    ghost Value = { List ℕ };

    ghost view = { λ reserved. reserved.name };
}
