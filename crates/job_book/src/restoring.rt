//! The book of rows that are given.

pub(crate) mod book;
pub(crate) mod counts;
pub(crate) mod keys;
