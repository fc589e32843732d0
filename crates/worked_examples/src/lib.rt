//! Worked examples of the rules of the farm, of the operator's tool and of the daemon's life, which the prover computes.
#![tactic(auto)]

mod daemon;
mod demonstration;
mod finishing;
mod limits;
mod listing;
mod tool;
mod waiting;

pub use daemon::{
    a_life_of_three_lines, boots_are_known_by_their_nonce, codes_are_those_of_lines,
    launches_take_what_is_left, old_replies_are_not_latest, refusals_are_told_once,
    spent_lives_only_boot, unfit_launches_are_reported,
};
pub use demonstration::{
    burst_stops_at_four, higher_jobs_come_first, new_lives_lose_attempts,
    old_completions_count_nothing, silent_hosts_lose_attempts, stale_reports_are_refused,
    submits_are_refused_in_order, sums_follow_attempts, texts_of_the_demonstration,
};
pub use finishing::killed_jobs_finish;
pub use limits::{limits_of_calls_are_as_documented, limits_of_the_farm_are_as_documented};
pub use listing::{
    attempts_are_listed, jobs_show_their_counts, lists_are_read, lists_are_refused,
    pages_begin_at_their_place, texts_of_lists, waiting_jobs_are_listed,
};
pub use tool::{
    help_is_asked_for_by_one_word, lists_are_tables, replies_are_read, requests_are_texts,
    specs_are_handed_on, words_are_lines, words_are_wrong_by_place,
};
pub use waiting::{depends_are_refused, jobs_wait_for_jobs};
