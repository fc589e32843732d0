//! Rows of the store: their bytes, the farm that they are, and a keeper of them.

use crate::{keeping, recoveries, rows};
use case_text::{Calls, LineFault};
use std::alloc::Global;

/// Calls for rows of the store.
#[derive(Clone, Copy, Debug, PartialEq, Eq)]
pub enum StoreCall {
    RowBytes,
    OldRowBytes,
    Recover,
    Keeper,
}

impl StoreCall {
    /// All of them, in the order in which their files are read.
    pub const ALL: [StoreCall; 4] = [
        StoreCall::RowBytes,
        StoreCall::OldRowBytes,
        StoreCall::Recover,
        StoreCall::Keeper,
    ];
}

impl Calls for StoreCall {
    fn file_name(&self) -> &'static str {
        match self {
            StoreCall::RowBytes => "row_bytes.rows",
            StoreCall::OldRowBytes => "old_row_bytes.rows",
            StoreCall::Recover => "recover.rows",
            StoreCall::Keeper => "keeper.rows",
        }
    }

    fn answer(&self, alloc: Global, given: &str) -> Result<String, LineFault> {
        match self {
            StoreCall::RowBytes => rows::row_bytes(alloc, given),
            StoreCall::OldRowBytes => rows::old_row_bytes(alloc, given),
            StoreCall::Recover => recoveries::recovered(alloc, given),
            StoreCall::Keeper => keeping::answers(alloc, given),
        }
    }
}
