//! The hosts of a load.

use farm_types::{Attempt, Items, Text};

/// A host of a load, and the attempts that the last reply to it launched, in order.
#[derive(Debug, Drop)]
pub struct LoadHost {
    pub name: Text,
    pub launched: Items<Attempt>,
}
