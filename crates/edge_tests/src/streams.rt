//! A connection over the network is a source and a sink.
use cue_io::{InputSource, Line, LineReader, OutputSink, write_all};
use dialer::{Dialer, NetDialer};
use std::net::{Ipv4Addr, SocketAddr, TcpListener};
use std::test::Fail;

#[test]
fn lines_go_both_ways_to_the_place_that_was_dialled(rt: HostRuntime) -> Result<(), Fail> {
    let listener = TcpListener::bind(&rt, SocketAddr::from((Ipv4Addr::LOCALHOST, 0)))?;
    let port = listener.local_addr()?.port();
    let dialled = NetDialer::make(rt.clone()?).dial("127.0.0.1", port);
    assert!(rt; dialled.is_ok());
    let Ok((replied, asks)) = dialled else {
        return Ok(());
    };
    let (mut replied, mut asks) = (replied, asks);
    let (far, _) = listener.accept()?;
    let mut asked = InputSource::make(far.try_clone()?);
    let mut lines = LineReader::make(rt.alloc(), 8)?;
    assert_eq!(rt; write_all(&mut asks, b"one\ntwo\n"), Ok(()));
    assert_eq!(rt; lines.next(&mut asked), Ok(Line::Bytes(b"one")));
    assert_eq!(rt; lines.next(&mut asked), Ok(Line::Bytes(b"two")));
    let mut replies = OutputSink::make(far);
    let mut reply_lines = LineReader::make(rt.alloc(), 8)?;
    assert_eq!(rt; write_all(&mut replies, b"yes\n"), Ok(()));
    assert_eq!(rt; reply_lines.next(&mut replied), Ok(Line::Bytes(b"yes")));
    assert_eq!(rt; asks.faults(), 0);
    assert_eq!(rt; asked.faults(), 0);
    assert_eq!(rt; replies.faults(), 0);
    drop(replies);
    drop(asked);
    assert_eq!(rt; reply_lines.next(&mut replied), Ok(Line::End));
    assert_eq!(rt; replied.faults(), 0);
    Ok(())
}
