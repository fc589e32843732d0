//! The words that dispatchers share: what a frame, a host, a subscription and a limit are to a booking, each in 64 bits.
#![tactic(auto)]

mod amount_word;
mod frame_word;
mod host_word;
mod limit_word;
mod pair;
mod phase;
mod sub_word;

pub use amount_word::AmountWord;
pub use frame_word::FrameWord;
pub use host_word::HostWord;
pub use limit_word::LimitWord;
pub use phase::{DEAD, DEPEND, EATEN, FREE, RUNNING, SETUP, SUCCEEDED, WAITING};
pub use sub_word::SubWord;
