//! Frames are done, or not any more: groups are met, and those who wait in them are freed.

pub(crate) mod changing;
pub(crate) mod completing;
pub(crate) mod flow;
pub(crate) mod opened;
pub(crate) mod reopening;
