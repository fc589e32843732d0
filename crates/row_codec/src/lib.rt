//! The bytes of the rows of the store: one spelling for each row.
#![tactic(auto)]

mod decoding;
mod depend_fields;
mod encoding;
mod examples;
mod farm_fields;
mod fault;
mod frame_fields;
mod host_fields;
mod job_fields;
mod laws;
mod layer_fields;
mod members;
mod read_fields;

pub use decoding::decode;
pub use encoding::encode;
pub use examples::{bytes_of_rows, rows_of_bytes};
pub use fault::RowFault;
pub use laws::{rows_are_read_as_spelled, rows_are_read_back, spellings_differ};
