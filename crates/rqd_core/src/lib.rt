//! RQD's step: what the daemon on a render host runs and has finished, the lines that it sends, and the orders that it takes from replies.
#![tactic(auto)]

mod codes;
mod config;
mod limits;
mod lines;
mod orders;
mod planned;
mod replies;
mod rqd;
mod running;
mod sent_line;
mod taking;

pub use config::RqdConfig;
pub use limits::{LAST_SEQ, UNFIT_STATUS};
pub use orders::{NoFit, Orders, RqdFault};
pub use rqd::Rqd;
pub use running::Running;
pub use sent_line::SentLine;
