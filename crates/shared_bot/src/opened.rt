//! From which farm the words of a table started.

use dispatcher::booking_recorder::Naming;
use std::marker::Brand;

/// From which farm the words of a table started, named in types. A call picks it.
pub trait Opened: Naming {
    ghost use Rattle.booking_rule.specs.declared.opening.Opening.{Opening};

    ghost opening: { Opening };
}

impl Opened for Brand {
    ghost use Rattle.booking_rule.specs.Link.{opening_of};
    ghost use Rattle.farm_types.specs.Farm.{empty_farm};

    ghost opening = { opening_of empty_farm };
}
