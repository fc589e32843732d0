//! Sessions over files.

use crate::place::{Place, tell};
use std::io;
use store_sessions::Session;

/// Answers lines over a file, where the keeper's call of the number `failing` fails, and tells the replies and the status.
pub fn answer(
    place: Place<'_>,
    lines: &[u8],
    failing: Option<u64>,
    came: &mut Vec<u8>,
) -> io::Result<()> {
    let mut session = Session::of(lines, failing);
    if place.work(&mut session, came)? {
        let told = session.into_told(place.alloc())?;
        came.extend_from_slice(&told.written)?;
        let line = format!(in place.alloc(); "status {}", told.status.code())?;
        tell(came, line.as_str())?;
    }
    Ok(())
}
