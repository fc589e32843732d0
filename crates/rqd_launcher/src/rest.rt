//! What passes the time between two rounds.

/// A pause. Nothing is claimed of it.
pub trait Rest {
    fn rest(&mut self);
}
