//! What is told of a report.

use farm_lines::Reply;
use farm_types::{Attempt, Cut, Items};

/// The reply to a report that was recorded, as its line.
#[derive(Debug, Drop)]
pub struct ReportLine {
    /// The line, its newline too.
    pub text: Items<u8>,
    /// The attempts that it launches.
    pub launched: Items<Attempt>,
    /// What cut the round short.
    pub cut: Cut,
}

/// What is told of a report: where it was recorded, the line of its reply, and else another reply.
#[derive(Debug, Drop)]
pub enum Told {
    Reported(ReportLine),
    Other(Reply),
}

/// What is told of a report, and how many frames its round booked.
#[derive(Debug, Drop)]
pub struct Taken {
    pub told: Told,
    pub booked: u32,
}
