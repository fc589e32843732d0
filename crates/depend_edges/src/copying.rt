//! A copy of a depend.

ghost use Rattle.std.specs.Prelude.{◌≡◌, IfOk};

use crate::listed::Listed;
use farm_types::{Group, Items};
use std::alloc::{AllocError, Global};

impl Listed {
    /// An equal depend.
    pub fn copy(&self, alloc: Global) -> Result<Listed, AllocError>
        ensures { IfOk result (λ copy. copy ≡ self.now) }
    {
        Ok(Listed {
            depend: self.depend,
            groups: copy_groups(alloc, self.groups.as_slice())?,
            counts: Vec::from_slice(alloc, self.counts.as_slice())?,
            edges: Vec::from_slice(alloc, self.edges.as_slice())?,
            unmet: self.unmet,
            gone: self.gone,
        })
    }
}

// Equal groups.
fn copy_groups(alloc: Global, groups: &[Group]) -> Result<Items<Group>, AllocError>
    ensures { IfOk result (λ copies. copies ≡ groups.now) }
{
    let mut copies = Items::new(alloc);
    for group in groups {
        copies.push(copy_group(alloc, group)?)?;
    }
    Ok(copies)
}

// An equal group.
fn copy_group(alloc: Global, group: &Group) -> Result<Group, AllocError>
    ensures { IfOk result (λ copy. copy ≡ group.now) }
{
    Ok(Group {
        position: group.position,
        waiters: group.waiters.copy(alloc)?,
        targets: group.targets.copy(alloc)?,
        any: group.any,
    })
}
