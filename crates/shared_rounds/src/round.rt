//! What a round of bookings answers.

use farm_types::{Candidate, Cut, Items};
use shared_bot::booking_recorder::BookResult;

/// A candidate of the plan, and what became of it.
#[derive(Clone, Copy, Debug, PartialEq, Eq)]
pub struct Outcome {
    pub candidate: Candidate,
    pub result: BookResult,
}

/// The outcomes of a round, one a candidate in the plan's order up to the twelfth booking or to what cut it short, and what ended it.
#[derive(Debug, Drop)]
pub struct Round {
    pub outcomes: Items<Outcome>,
    pub cut: Cut,
}
