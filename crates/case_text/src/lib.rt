//! What programs of cases share: files of cases and of rows, and how texts, numbers and bytes are written in them.
#![tactic(auto)]

mod differences;
mod file_names;
mod files;
mod line_fault;
mod moves;
mod numbers;
mod quotes;
mod rows;
mod spelling;
mod told;

pub use differences::{line_difference, shown, status_difference};
pub use files::{Cases, run_files};
pub use line_fault::LineFault;
pub use moves::{Moves, moves_of};
pub use numbers::{bytes_of, most_bytes_of, number_of, numbers_of, status_of};
pub use quotes::unquoted;
pub use rows::{Calls, run_calls};
pub use spelling::{add_line, text_bytes};
pub use told::{Told, take_lines, take_settings, words_of};
