//! How a round of bookings went.

use farm_types::Cut;

/// What ended a round of bookings, and how many frames it booked.
#[derive(Clone, Copy, Debug, PartialEq, Eq)]
pub struct Walked {
    pub cut: Cut,
    pub booked: u32,
}
