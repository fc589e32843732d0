//! The machine's network.

ghost use Rattle.std.specs.Prelude.{◌≡◌, ◌↔◌, ◌≤◌, IfOk, IsErrOf, MatchResult};
ghost use Rattle.fault_counts.specs.Counts.{HasRisen, incremented};
ghost use Rattle.listener.specs.Counted.{counted_after};
ghost use Rattle.listener.specs.declared.accept.AcceptFault.TheVariants.{Failed, NoMemory};

use crate::accept::{AcceptFault, Listener};
use cue_io::{InputSource, OutputSink};
use std::io;
use std::io::ErrorKind;
use std::marker::Model;
use std::net::{Ipv4Addr, Net, OpenListener, OpenStream, SocketAddr, TcpListener};

/// Takes connections over TCP, at a port of each address of this machine.
#[derive(Drop)]
pub struct NetListener<R: Net> {
    listener: R::Listener,
    accepted: u64,
    faults: u64,
}

impl<R: Net> Model for NetListener<R> {
    ghost use Rattle.listener.specs.Counted.{Counted};

    ghost Value = { Counted };

    ghost view = { λ l. record { accepted = l.accepted; faults = l.faults } };
}

impl<R: Net> NetListener<R> {
    /// Binds a port of 0.0.0.0, from 1 to 65,535; 0 is a free one that the machine picks. It accepted nothing yet.
    pub fn bind(rt: &R, port: u16) -> Result<NetListener<R>, AcceptFault>
        ensures { IfOk result (λ l. l ≡ record { accepted = 0; faults = 0 }) }
    {
        let place = SocketAddr::from((Ipv4Addr::UNSPECIFIED, port));
        let listener = TcpListener::bind(rt, place).map_err(|error| fault_of(error.kind()))?;
        Ok(NetListener {
            listener,
            accepted: 0,
            faults: 0,
        })
    }

    /// The port that it is bound to.
    pub fn port(&self) -> io::Result<u16> {
        Ok(self.listener.local_addr()?.port())
    }

    /// How many connections were accepted.
    pub fn accepted(&self) -> u64
        ensures { result ≡ self.now.accepted }
    {
        self.accepted
    }

    /// How many calls failed.
    pub fn faults(&self) -> u64
        ensures { result ≡ self.now.faults }
    {
        self.faults
    }
}

impl<R: Net> Listener for NetListener<R> {
    ghost accepted = { λ l. l.accepted };

    ghost faults = { λ l. l.faults };

    type In = InputSource<R::Stream>;

    type Out = OutputSink<R::Stream>;

    fn accept(&mut self) -> Result<(InputSource<R::Stream>, OutputSink<R::Stream>), AcceptFault>
        ensures accepted { MatchResult result (λ _. self.new.accepted ≡ incremented self.old.accepted) (λ _. self.new.accepted ≡ self.old.accepted) }
        ensures cause { IsErrOf result Failed → HasRisen self.old.faults self.new.faults }
        ensures rises { self.old.faults ≤ self.new.faults }

        // exactly what is counted
        ensures counted { self.new ≡ counted_after result self.old }
    {
        match accepted_by(&self.listener) {
            Ok(ends) => {
                self.accepted = self.accepted.saturating_add(1);
                Ok(ends)
            }
            Err(AcceptFault::Failed) => {
                self.faults = self.faults.saturating_add(1);
                Err(AcceptFault::Failed)
            }
            Err(AcceptFault::NoMemory) => Err(AcceptFault::NoMemory),
        }
    }
}

// Both ends of the next connection.
fn accepted_by<O: OpenListener>(
    listener: &O,
) -> Result<(InputSource<O::Stream>, OutputSink<O::Stream>), AcceptFault>
where
    O::Stream: io::Read + io::Write + OpenStream,
{
    let (stream, _) = listener.accept().map_err(|error| fault_of(error.kind()))?;
    // So that a reply that is written in parts isn't held back. A machine that can't have it so is no fault.
    let _ = stream.set_nodelay(true);
    let reader = stream.try_clone().map_err(|error| fault_of(error.kind()))?;
    Ok((InputSource::make(reader), OutputSink::make(stream)))
}

// Why there is no connection.
fn fault_of(kind: ErrorKind) -> AcceptFault
    ensures { (result ≡ NoMemory) ↔ (kind ≡ ErrorKind.OutOfMemory) }
{
    match kind {
        ErrorKind::OutOfMemory => AcceptFault::NoMemory,
        _ => AcceptFault::Failed,
    }
}
