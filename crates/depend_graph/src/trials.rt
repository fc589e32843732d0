//! What a change would meet and open, before it is made.

pub(crate) mod completion;
pub(crate) mod marks;
pub(crate) mod meeting;
pub(crate) mod opening;
pub(crate) mod opens;
pub(crate) mod over;
pub(crate) mod trial;
pub(crate) mod trying;
