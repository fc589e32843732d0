//! A depend comes: the memory for it, the counts of its groups, and those who wait in them.

pub(crate) mod adding;
pub(crate) mod counting;
pub(crate) mod marking;
pub(crate) mod reserving;
pub(crate) mod spare;
