//! The machine's clock, and one that shows given times.
use cue_io::{Clock, SystemClock};
use std::cell::Cell;
use std::test::Fail;
use std::time::Duration;
use std::{io, rt};

/// A clock that shows these times, in milliseconds since 1970, and then its last one for ever.
#[derive(Drop)]
struct Shown {
    times: [u64; 3],
    at: Cell<usize>,
}

impl rt::Clock for Shown {
    fn monotonic(&self) -> io::Result<Duration> {
        self.since_1970()
    }

    fn since_1970(&self) -> io::Result<Duration> {
        let at = self.at.get().min(2);
        self.at.set(at + 1);
        Ok(Duration::from_millis(self.times[at]))
    }
}

#[test]
fn a_clock_counts_whole_seconds_and_never_goes_back(rt: HostRuntime) -> Result<(), Fail> {
    let shown = Shown {
        times: [5_999, 7_000, 6_999],
        at: Cell::new(0),
    };
    let mut clock = SystemClock::make(&shown);
    assert_eq!(rt; [clock.now(), clock.now(), clock.now()], [5, 7, 7]);
    Ok(())
}

#[test]
fn the_machine_tells_the_time(rt: HostRuntime) -> Result<(), Fail> {
    let mut clock = SystemClock::make(rt.clone()?);
    let first = clock.now();
    assert!(rt; 1_700_000_000 < first);
    assert!(rt; first <= clock.fork(rt.alloc())?.now());
    Ok(())
}
