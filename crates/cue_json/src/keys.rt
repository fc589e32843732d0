//! Keys of members.

ghost use Rattle.std.specs.Prelude.{◌≡◌, bytes_eq};

/// Whether the keys are one. Most keys differ in how long they are, which is looked at first.
pub(crate) fn is_same(one: &str, other: &str) -> bool
    ensures { result ≡ bytes_eq one.now other.now }
{
    one.len() == other.len() && one == other
}
