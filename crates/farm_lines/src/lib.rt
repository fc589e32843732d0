//! What speaks of lines: requests and replies, reports and launches, fields and forms that only lines have, and in `specs/`
//! what each line asks, what is replied to it, and the bytes of a whole session.
#![tactic(auto)]

mod asked;
mod attempt_reader;
mod attempt_writer;
mod boot_form;
mod cores_text;
mod field_faults;
mod fields;
mod job_form;
mod launch;
mod laws;
mod limit_form;
mod limits;
mod list_row;
mod name_field;
mod number;
mod points;
mod query;
mod reply;
mod report;
mod request;
mod sub_form;
mod what;

pub use asked::Asked;
pub use attempt_reader::AttemptReader;
pub use attempt_writer::write_attempts;
pub use boot_form::BootForm;
pub use cores_text::read_cores;
pub use fields::{read_list, read_text, read_whole};
pub use job_form::{JobForm, LayerForm};
pub use launch::Launch;
pub use laws::requests_are_formed;
pub use limit_form::{LimitForm, LimitLine};
pub use limits::{
    LAUNCHES_EACH, LEAST_FRAME, LINE_LIMIT, MOST_BOOKED, MOST_FRAME, REPLY_LIMIT, ROWS_EACH,
};
pub use list_row::{
    ListRow, RowKind, ShownDepend, ShownFrame, ShownHost, ShownJob, ShownLayer, ShownLimit,
    ShownProc, ShownSub,
};
pub use name_field::{read_name, read_name_or_empty};
pub use number::{is_number, number_of};
pub use points::split_at_point;
pub use query::{Listed, Query};
pub use reply::{ListReply, Reply, ReportReply};
pub use report::Report;
pub use request::{Request, RequestFault};
pub use sub_form::SubForm;
pub use what::What;
