//! A caller of the scheduler.
use cue_io::{InputSource, Line, LineReader, OutputSink, write_all};
use std::io;
use std::net::{Ipv4Addr, OpenStream, SocketAddr, TcpStream};

/// A connection to the scheduler: lines go out, and replies come.
#[derive(Drop)]
pub(crate) struct Caller {
    asks: OutputSink<TcpStream>,
    replies: InputSource<TcpStream>,
    lines: LineReader,
}

impl Caller {
    /// Connects to a port of this machine.
    pub fn call(rt: &HostRuntime, port: u16) -> io::Result<Caller> {
        let stream = TcpStream::connect(rt, SocketAddr::from((Ipv4Addr::LOCALHOST, port)))?;
        // So that a line's end isn't held back. A machine that can't have it so is no fault.
        let _ = stream.set_nodelay(true);
        Ok(Caller {
            replies: InputSource::make(stream.try_clone()?),
            asks: OutputSink::make(stream),
            lines: LineReader::make(rt.alloc(), 4096)?,
        })
    }

    /// Sends a line. Whether it could be sent.
    pub fn sends(&mut self, line: &str) -> bool {
        write_all(&mut self.asks, line.as_bytes()).is_ok()
            && write_all(&mut self.asks, b"\n").is_ok()
    }

    /// Takes the next reply. Whether it is this one.
    pub fn hears(&mut self, reply: &str) -> bool {
        self.lines.next(&mut self.replies) == Ok(Line::Bytes(reply.as_bytes()))
    }

    /// Sends a line and takes its reply. Whether it is this one.
    pub fn asks(&mut self, line: &str, reply: &str) -> bool {
        self.sends(line) && self.hears(reply)
    }

    /// Sends lines in turn, and takes the reply of each before the next one. Whether they are these.
    pub fn asks_each(&mut self, lines: &[(&str, &str)]) -> bool {
        for (line, reply) in lines {
            if !self.asks(line, reply) {
                return false;
            }
        }
        true
    }
}
