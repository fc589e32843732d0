//! Depends that come: of themselves, and with a job that is to be placed.

pub(crate) mod blocked;
pub(crate) mod blocked_own;
pub(crate) mod checks;
pub(crate) mod depends;
pub(crate) mod own_depends;
pub(crate) mod own_job;
pub(crate) mod room;
pub(crate) mod submitted;
