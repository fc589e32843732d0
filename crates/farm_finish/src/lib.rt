//! Jobs that finish with an entry: which they are, and what becomes of the books.
#![tactic(auto)]

mod applying;
mod counting;
mod preparing;
mod rows;
mod rows_gone;
mod rows_job;
mod versions;

pub use applying::apply_finish;
pub use preparing::prepare_finish;
pub use rows::finish_rows;
