//! Where a job goes: whether it can be placed, in which free slots, and its frames put there.

pub(crate) mod check;
pub(crate) mod free_places;
pub(crate) mod place;
pub(crate) mod placing;
pub(crate) mod put;
pub(crate) mod reserve;
