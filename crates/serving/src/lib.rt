//! A scheduler that serves connections: workers answer them beside each other, over one farm.
#![tactic(auto)]

mod handler;
mod opened;
mod run;
mod serve_words;
mod word_form;
mod worker;
mod workers;

pub use run::run_serve;
pub use serve_words::ServeForm;
pub use word_form::serve_form;

// What the crates above name through this one. They don't list it too: a build sums a crate up once for each way that leads to it.
pub use session;
pub use shared_sessions;
