//! Ports as words.

ghost use Rattle.std.specs.Prelude.{◌≡◌};
ghost use Rattle.dialer.specs.Dials.{port_of};

use farm_lines::number_of;

/// The port that 1 to 10 decimal digits write, where it is one from 1 to 65,535.
pub fn port_of(text: &str) -> Option<u16>
    ensures { result ≡ port_of text.now }
{
    let port = number_of(text)?;
    if 1 <= port && port <= 65535 {
        Some(port as u16)
    } else {
        None
    }
}
