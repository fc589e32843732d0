//! The text of each request.

pub(crate) mod boot;
pub(crate) mod depend;
pub(crate) mod frame;
pub(crate) mod limit;
pub(crate) mod list;
pub(crate) mod members;
pub(crate) mod name;
pub(crate) mod report;
pub(crate) mod sub;
pub(crate) mod submit;
pub(crate) mod writer;
