//! A rest takes time.
use child_spawner::SleepRest;
use rqd_launcher::Rest;
use std::cell::Cell;
use std::test::Fail;
use std::time::Duration;
use std::{io, rt};

/// A clock that stands still, and counts the seconds that it is asked to let pass.
#[derive(Drop)]
struct Slept {
    seconds: Cell<u64>,
}

impl rt::Clock for Slept {
    fn monotonic(&self) -> io::Result<Duration> {
        Ok(Duration::from_secs(0))
    }

    fn since_1970(&self) -> io::Result<Duration> {
        Ok(Duration::from_secs(0))
    }

    fn sleep(&self, duration: Duration) {
        self.seconds
            .set(self.seconds.get().saturating_add(duration.as_secs()));
    }
}

#[test]
fn a_rest_takes_a_second(rt: HostRuntime) -> Result<(), Fail> {
    let slept = Slept {
        seconds: Cell::new(0),
    };
    let mut rest = SleepRest::make(&slept);
    rest.rest();
    rest.rest();
    assert_eq!(rt; slept.seconds.get(), 2);
    Ok(())
}
