//! The pure machine with the recorder's steps: those of claimants and those of the recorder's seat, over any list of them.
#![tactic(auto)]

mod law;

pub use law::{
    bookings_leave_nothing, others_start_nothing, steps_keep_the_rule, steps_record_entries,
    steps_write_whole_words,
};
