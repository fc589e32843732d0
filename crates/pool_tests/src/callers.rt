//! Connections over TCP, and workers that share them.
use cue_io::{InputSource, Line, LineReader, OutputSink, Sink, Source, write_all};
use listener::{Listener, NetListener};
use std::alloc::Global;
use std::net::{Ipv4Addr, Net, OpenStream, SocketAddr, TcpStream};
use std::test::Fail;
use std::{io, thread};
use worker_pool::{Handler, run_workers};

// Sends each line back, to the end of the connection.
fn send_back<S: Source, W: Sink>(alloc: Global, source: &mut S, sink: &mut W) {
    let Ok(mut lines) = LineReader::make(alloc, 8) else {
        return;
    };
    for _line in 0..100 {
        let Ok(Line::Bytes(line)) = lines.next(source) else {
            return;
        };
        if write_all(sink, line).is_err() || write_all(sink, b"\n").is_err() {
            return;
        }
    }
}

/// Workers that count the connections on which they sent each line back.
#[derive(Drop)]
struct Echo {
    alloc: Global,
}

impl<L: Listener> Handler<L> for Echo
where
    L::In: Drop,
    L::Out: Drop,
{
    type State = u32;

    fn handle(&self, handled: &mut u32, input: L::In, output: L::Out) {
        let (mut input, mut output) = (input, output);
        send_back(self.alloc, &mut input, &mut output);
        *handled = handled.saturating_add(1);
    }
}

/// Whether a line that is sent comes back.
fn is_answered<R: Net + AllocGlobal>(rt: &R, port: u16) -> io::Result<bool> {
    let stream = TcpStream::connect(rt, SocketAddr::from((Ipv4Addr::LOCALHOST, port)))?;
    let mut replies = InputSource::make(stream.try_clone()?);
    let mut asks = OutputSink::make(stream);
    let mut lines = LineReader::make(rt.alloc(), 8)?;
    if write_all(&mut asks, b"hello\n").is_err() {
        return Ok(false);
    }
    Ok(lines.next(&mut replies) == Ok(Line::Bytes(b"hello")))
}

#[test]
fn a_silent_caller_holds_one_worker(rt: HostRuntime) -> Result<(), Fail> {
    let mut listener = NetListener::bind(&rt, 0)?;
    let port = listener.port()?;
    let silent = TcpStream::connect(&rt, SocketAddr::from((Ipv4Addr::LOCALHOST, port)))?;
    let echo = Echo { alloc: rt.alloc() };
    let states = Vec::from_array(rt.alloc(), [0, 0])?;
    let (outcome, answered) = thread::join(
        &rt,
        || run_workers(&rt, &mut listener, &echo, states, 3),
        || {
            let first = is_answered(&rt, port);
            let second = is_answered(&rt, port);
            drop(silent);
            (first, second)
        },
    );
    assert!(rt; answered.0?);
    assert!(rt; answered.1?);
    assert_eq!(rt; outcome, Ok(()));
    assert_eq!(rt; listener.accepted(), 3);
    Ok(())
}
