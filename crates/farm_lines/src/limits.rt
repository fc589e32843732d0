//! The limits of lines.

use farm_types::{MOST_CORES, MOST_HOSTS};

/// How many bytes a line has at most, without its newline.
pub const LINE_LIMIT: u32 = 1_048_576;

/// How many attempts a reply launches at most.
pub const LAUNCHES_EACH: u32 = 64;

/// How many rows a reply to a list has at most.
pub const ROWS_EACH: u32 = 1000;

/// The least number of a frame.
pub const LEAST_FRAME: i64 = -9_999_999;

/// The greatest number of a frame.
pub const MOST_FRAME: i64 = 9_999_999;

/// The most cores that are booked of a subscription (hundredths of a core): all that hosts may have. A burst that is lowered leaves what is booked.
pub const MOST_BOOKED: u32 = MOST_HOSTS * MOST_CORES;

/// How many bytes a reply has at most, without its newline.
pub const REPLY_LIMIT: u32 = 16_777_216;
