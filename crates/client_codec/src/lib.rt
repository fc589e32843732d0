//! The client's side of the codec: the text of a request, and the reply that a line is.
#![tactic(auto)]

mod laws;
mod replies;
mod requests;

pub use laws::{replies_are_read_back, requests_are_read_back, requests_are_single_lines};
pub use replies::reader::{ReplyFault, read_reply};
pub use requests::writer::write_request;
