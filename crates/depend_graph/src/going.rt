//! Depends go: those that are dropped, and those that are forgotten.

pub(crate) mod dropping;
pub(crate) mod forgetting;
pub(crate) mod releasing;
pub(crate) mod room;
