//! The rows that change with what follows an act.

pub(crate) mod changed;
pub(crate) mod completed;
pub(crate) mod moved;
