//! Lines that await a reply.

/// A line that was sent: a boot line, or a report with its boot number and its sequence number.
#[derive(Clone, Copy, Debug, PartialEq, Eq)]
pub enum SentLine {
    Boot,
    Report { boot: u32, seq: u64 },
}
