//! The memory that an allocation needs.

ghost use Rattle.std.specs.Prelude.{ℕ};

use farm_types::AllocRow;
use std::marker::Model;

/// The memory that was reserved for an allocation, which contracts see as its row.
#[derive(Debug, Drop)]
pub struct Spare {
    pub(crate) row: AllocRow,
}

impl Model for Spare {
    ghost use Rattle.farm_types.specs.declared.rows.AllocRow as alloc_row;

    ghost Value = { alloc_row.AllocRow };

    ghost view = { λ reserved. reserved.row };
}
