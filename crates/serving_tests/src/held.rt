//! A gate at which a test holds a dispatcher.
use serving::shared_sessions::shared_rounds::{Gate, Point};
use std::alloc::{AllocError, Global};
use std::sync::atomic::{AtomicU64, Ordering};
use std::thread;
use std::time::Duration;

// How often a dispatcher that is held looks whether it was let go, and a test whether it has come. In every fortieth turn it sleeps for a millisecond, so that
// all turns take at least 25 seconds: the others have to have their time also where each processor is busy with something else.
const MOST_TURNS: u32 = 1_000_000;

const TURNS_A_REST: u32 = 40;

/// Holds the first dispatcher that comes to a point until it is let go, or for a million turns. All others pass.
#[derive(Drop)]
pub(crate) struct Held {
    point: Point,
    came: AtomicU64,
    is_open: AtomicU64,
    is_late: AtomicU64,
}

impl Held {
    /// Nobody has come to the point yet.
    pub fn at(point: Point) -> Held {
        Held {
            point,
            came: AtomicU64::new(0),
            is_open: AtomicU64::new(0),
            is_late: AtomicU64::new(0),
        }
    }

    /// The gates of two dispatchers, each of which may be the first one that comes.
    pub fn gates<'a>(
        &'a self,
        rt: &'a HostRuntime,
        alloc: Global,
    ) -> Result<Vec<HeldGate<'a>>, AllocError> {
        let mut gates = Vec::new(alloc);
        gates.push(HeldGate { rt, held: self })?;
        gates.push(HeldGate { rt, held: self })?;
        Ok(gates)
    }

    /// Waits for the first dispatcher. Whether it came.
    pub fn has_come(&self, rt: &HostRuntime) -> bool {
        becomes_set(rt, &self.came)
    }

    /// Lets it go. Whether it was still held.
    pub fn lets_go(&self) -> bool {
        self.is_open.store(1, Ordering::SeqCst);
        self.is_late.load(Ordering::SeqCst) == 0
    }

    // Holds who comes first to the point.
    fn hold(&self, rt: &HostRuntime, point: Point) {
        if point != self.point || self.came.fetch_add(1, Ordering::SeqCst) != 0 {
            return;
        }
        if !becomes_set(rt, &self.is_open) {
            self.is_late.store(1, Ordering::SeqCst);
        }
    }
}

// Whether a number ceases to be 0 within so many turns.
fn becomes_set(rt: &HostRuntime, number: &AtomicU64) -> bool {
    for turn in 0..MOST_TURNS {
        if number.load(Ordering::SeqCst) != 0 {
            return true;
        }
        if turn % TURNS_A_REST == 0 {
            thread::sleep(rt, Duration::from_millis(1));
        } else {
            thread::yield_now();
        }
    }
    false
}

/// The gate of one dispatcher.
#[derive(Drop)]
pub(crate) struct HeldGate<'a> {
    rt: &'a HostRuntime,
    held: &'a Held,
}

impl Gate for HeldGate<'_> {
    fn pass(&mut self, point: Point) {
        self.held.hold(self.rt, point);
    }
}
