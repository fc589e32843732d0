//! A depend that is to come.

use farm_types::{DependEnd, DependKind, Group, Items};

/// A depend without its number, and its groups.
#[derive(Debug, Drop)]
pub struct NewDepend {
    pub kind: DependKind,
    pub any: bool,
    pub waiter: DependEnd,
    pub target: DependEnd,
    pub groups: Items<Group>,
}
