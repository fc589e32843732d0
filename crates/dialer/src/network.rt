//! The machine's network.

ghost use Rattle.std.specs.Prelude.{◌≡◌, ◌↔◌, None};

use crate::dial::{DialFault, Dialer};
use cue_io::{InputSource, OutputSink};
use std::io::ErrorKind;
use std::net::{Net, OpenStream, TcpStream};

/// Connects over TCP. It tells nothing of the connections that it was asked for.
#[derive(Drop)]
pub struct NetDialer<R> {
    rt: R,
}

impl<R> NetDialer<R> {
    pub fn make(rt: R) -> NetDialer<R> {
        NetDialer { rt }
    }
}

impl<R: Net + Drop> Dialer for NetDialer<R> {
    type In = InputSource<R::Stream>;

    type Out = OutputSink<R::Stream>;

    ghost dialled = { λ _. None };

    fn dial(
        &mut self,
        address: &str,
        port: u16,
    ) -> Result<(InputSource<R::Stream>, OutputSink<R::Stream>), DialFault> {
        let place = (address, port);
        let stream = TcpStream::connect(&self.rt, place).map_err(|error| fault_of(error.kind()))?;
        let reader = stream.try_clone().map_err(|error| fault_of(error.kind()))?;
        Ok((InputSource::make(reader), OutputSink::make(stream)))
    }
}

// Why there is no connection.
fn fault_of(kind: ErrorKind) -> DialFault
    ensures { (result ≡ DialFault.NoMemory) ↔ (kind ≡ ErrorKind.OutOfMemory) }
{
    match kind {
        ErrorKind::OutOfMemory => DialFault::NoMemory,
        _ => DialFault::Failed,
    }
}
