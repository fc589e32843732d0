//! The reply that a line is.

pub(crate) mod at_most;
pub(crate) mod done;
pub(crate) mod farm_refusal;
pub(crate) mod full_refusal;
pub(crate) mod launch;
pub(crate) mod line_refusal;
pub(crate) mod list;
pub(crate) mod reader;
pub(crate) mod refusal;
pub(crate) mod report;
pub(crate) mod row;
