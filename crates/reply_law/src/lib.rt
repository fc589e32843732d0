//! The law of replies: what is replied over a farm that the program keeps is within its forms and limits, and is read back.
#![tactic(auto)]

mod laws;

pub use laws::{answers_are_formed, answers_are_read_back};
