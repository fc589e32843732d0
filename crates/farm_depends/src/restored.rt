//! The depends of a farm, put back from its rows.

pub(crate) mod depends;
pub(crate) mod marks;
pub(crate) mod rows;
