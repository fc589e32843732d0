//! Sessions of the scheduler: lines in, replies out.
#![tactic(auto)]

mod exchange;
mod laws;
mod load;
mod number;
mod opening;
mod program;
mod run;
mod serve;
mod stored;
mod word_forms;
mod words;

pub use laws::{
    migrations_keep_farms, stops_keep_acknowledged_lines, stops_keep_farms,
    store_marks_stand_at_failed_calls,
};
pub use number::read_number;
pub use opening::{OpenFault, Opening};
pub use program::run_program;
pub use run::run_cuebot;
pub use stored::{load_stored, open_loaded};
pub use word_forms::form;
pub use words::Form;
