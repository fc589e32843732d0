//! The answer to one line: what it records in the farm, and the line of its reply.
#![tactic(auto)]

mod answer;
mod answer_report;
mod asking;
mod hearing;
mod hindered;
mod launches;
mod laws;
mod limits;
mod listing;
mod one_entry;
mod reply_line;
mod reporting;
mod told;

pub use answer::answer_line;
pub use answer_report::{heard_by, other_line, take_report, unrecorded_reply};
pub use asking::{ask, asked_of};
pub use hearing::hear;
pub use hindered::Hindered;
pub use laws::{
    lines_are_answered_by_what_they_ask, reports_are_legal, sessions_are_legal,
    taken_reports_have_their_round,
};
pub use limits::ENTRIES_EACH;
pub use listing::answer_list;
pub use one_entry::answer_entry;
pub use reply_line::{ReplyLine, line_of};
pub use reporting::report_line;
pub use told::{ReportLine, Taken, Told};

// What the crates above name through this one. They don't list it too: a build sums a crate up once for each way that leads to it.
pub use dispatcher::{booking_recorder, farm_core, recorder, recording_turns};
