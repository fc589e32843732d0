//! The pure machine: the steps of claimants on the table of words, over any list of them.
#![tactic(auto)]

mod law;

pub use law::{steps_keep_the_rule, steps_record_nothing, steps_write_whole_words};
