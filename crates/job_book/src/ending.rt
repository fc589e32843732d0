//! Jobs finish, and finished jobs leave.

pub(crate) mod finish;
pub(crate) mod freeing;
pub(crate) mod leave;
