//! What errors of the system are to a spawner.

ghost use Rattle.std.specs.Prelude.{◌≡◌, ◌↔◌};

use rqd_launcher::SpawnFault;
use std::io::ErrorKind;

/// No memory, or a failure.
pub(crate) fn fault_of(kind: ErrorKind) -> SpawnFault
    ensures { (result ≡ SpawnFault.NoMemory) ↔ (kind ≡ ErrorKind.OutOfMemory) }
{
    match kind {
        ErrorKind::OutOfMemory => SpawnFault::NoMemory,
        _ => SpawnFault::Failed,
    }
}
