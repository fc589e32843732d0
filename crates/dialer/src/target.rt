//! Where a program's words say to connect to.

ghost use Rattle.std.specs.Prelude.{◌≡◌, option_map};
ghost use Rattle.dialer.specs.Dials.{target_at, target_of};

use crate::port::port_of;
use farm_types::Text;

/// Where the first two words say to connect to, an address and a port, and the words after them.
pub fn target_of(words: &[Text]) -> Option<(&str, u16, &[Text])>
    ensures { option_map (λ target. target_at target.0.now target.2.now target.1) result ≡ target_of words.now }
{
    match words {
        [address, port, more @ ..] => {
            let port = port_of(port.as_str())?;
            Some((address.as_str(), port, more))
        }
        _ => None,
    }
}
