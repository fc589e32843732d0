//! Where a dispatcher can be held between two of its steps.

/// Where a dispatcher stands. `Looked`: it saw the frame waiting as it was chosen. `Claimed`: it has claimed it.
#[derive(Clone, Copy, Debug, PartialEq, Eq)]
pub enum Point {
    Looked,
    Claimed,
}

/// What a dispatcher passes between two of its steps: a test holds it there.
pub trait Gate {
    /// Comes back once the dispatcher may go on.
    fn pass(&mut self, point: Point);
}

/// The gate that is always open.
#[derive(Clone, Copy, Debug, PartialEq, Eq)]
pub struct OpenGate;

impl Gate for OpenGate {
    fn pass(&mut self, point: Point) {
        let _point = point;
    }
}
