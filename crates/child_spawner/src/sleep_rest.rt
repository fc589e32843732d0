//! A rest that sleeps.

use rqd_launcher::Rest;
use std::rt::Clock;
use std::thread;
use std::time::Duration;

/// Sleeps for a second each time.
#[derive(Drop)]
pub struct SleepRest<R> {
    rt: R,
}

impl<R> SleepRest<R> {
    pub fn make(rt: R) -> SleepRest<R> {
        SleepRest { rt }
    }
}

impl<R: Clock + Drop> Rest for SleepRest<R> {
    fn rest(&mut self) {
        thread::sleep(&self.rt, Duration::from_secs(1));
    }
}
