//! The laws of one entry that the booking words need, over the model alone.
#![tactic(auto)]

mod claims;
mod rows;
mod slots;

pub use claims::claims_are_billed;
pub use rows::{bursts_stay, hosts_grow, hosts_stay, sizes_change_by_boots, subs_stay};
pub use slots::{
    books_alone, frames_keep_amounts, only_books_run, stands_stay, used_is_running, versions_rise,
    waiting_rises,
};
