//! Which table a recorder is of.

use std::marker::Brand;

/// Which table a recorder is of. A call picks it.
pub trait Naming {
    ghost use Rattle.atomic_table.specs.Seated.{TableId};

    ghost table: { TableId };
}

impl Naming for Brand {
    ghost use Rattle.booking_recorder.specs.Recording.{no_table};

    ghost table = { no_table };
}
