//! The jobs of the book of jobs: each with its row, the counts of its frames, its layers, and where the frames of those stand.
#![tactic(auto)]

mod copy;
mod counting;
mod counts;
mod entries;
mod entry;
mod entry_changes;
mod places;
mod restored_entries;
mod restored_index;
mod rows;

pub use counting::{all_waiting, counted_in};
pub use counts::Counts;
pub use entries::{At, Entries};
pub use entry::Entry;
pub use restored_entries::entries_of;
pub use restored_index::index_of;
