//! Workers over a listener in memory.
use cue_io::{MemorySink, MemorySource, Source};
use listener::MemoryListener;
use std::alloc::{AllocError, Global};
use std::sync::{Mutex, Wait};
use std::test::Fail;
use worker_pool::{Handler, WorkersFault, run_workers};

/// Adds up the first byte of each connection.
#[derive(Drop)]
struct Sum<'a, R: Wait> {
    rt: &'a R,
    total: Mutex<u64>,
}

impl<R: Wait> Handler<MemoryListener> for Sum<'_, R> {
    type State = u32;

    fn handle(&self, handled: &mut u32, input: MemorySource, _output: MemorySink) {
        let mut input = input;
        let mut first = [0u8; 1];
        *handled = handled.saturating_add(1);
        if input.read(&mut first) == Ok(1) {
            let mut total = self.total.lock(self.rt);
            *total = total.saturating_add(u64::from(first[0]));
        }
    }
}

/// A listener with connections that bring these bytes, one each.
fn listener_of(alloc: Global, bytes: &[u8], fails: &[u64]) -> Result<MemoryListener, AllocError> {
    let mut inputs = Vec::new(alloc);
    for byte in bytes {
        inputs.push(MemorySource::make(alloc, &[*byte], 1, &[])?)?;
    }
    MemoryListener::make(alloc, inputs, 8, fails)
}

#[test]
fn each_connection_is_handled_once(rt: HostRuntime) -> Result<(), Fail> {
    let alloc = rt.alloc();
    let mut listener = listener_of(alloc, &[1, 2, 4, 8, 16, 32], &[])?;
    let sum = Sum {
        rt: &rt,
        total: Mutex::new(0),
    };
    let states = Vec::from_array(alloc, [0, 0, 0])?;
    assert_eq!(rt; run_workers(&rt, &mut listener, &sum, states, 5), Ok(()));
    assert_eq!(rt; listener.accepted(), 5);
    assert_eq!(rt; listener.faults(), 0);
    assert_eq!(rt; sum.total.into_inner(), 31);
    Ok(())
}

#[test]
fn a_failed_listener_ends_the_workers(rt: HostRuntime) -> Result<(), Fail> {
    let alloc = rt.alloc();
    let mut listener = listener_of(alloc, &[1, 2, 4], &[3])?;
    let sum = Sum {
        rt: &rt,
        total: Mutex::new(0),
    };
    let states = Vec::from_array(alloc, [0, 0])?;
    assert_eq!(rt;
        run_workers(&rt, &mut listener, &sum, states, 3),
        Err(WorkersFault::Accept)
    );
    assert_eq!(rt; listener.accepted(), 2);
    assert_eq!(rt; listener.faults(), 1);
    assert_eq!(rt; sum.total.into_inner(), 3);
    Ok(())
}
