//! Places as lines.

use dialer::MemoryDialer;
use std::alloc::{AllocError, Global};

/// A line for each place that a dialer was asked for, as `10.0.0.1 7412`.
pub fn place_lines(alloc: Global, dialer: &MemoryDialer) -> Result<String, AllocError> {
    let mut lines = String::new(alloc);
    for at in 0..dialer.count() {
        if let Some((address, port)) = dialer.place(at) {
            lines.push_str(format!(in alloc; "{address} {port}\n")?.as_str())?;
        }
    }
    Ok(lines)
}
