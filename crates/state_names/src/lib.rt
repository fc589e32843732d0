//! The words for states, locks, kinds of depends, cuts and counts, in lines and in rows: each both ways. And what a kind of depend names.
#![tactic(auto)]

mod ends;
mod names;
mod words;

pub use ends::{names_frame, names_layer, names_target_frame, names_target_layer};
pub use names::{Word, named, read_word};
pub use words::{counted_word, cut_word, host_word, job_word, kind_word, lock_word, state_word};
