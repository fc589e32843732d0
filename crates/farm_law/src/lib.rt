//! The laws of the farm's runs, over the model alone.
#![tactic(auto)]

mod law;

pub use law::{
    candidates_suit, legal_runs_are_safe, legal_runs_keep_hosts, legal_runs_keep_rows, suits_stays,
    the_demonstration_is_a_run,
};
