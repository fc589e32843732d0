//! The order of rows: by kind, then id.

ghost use Rattle.std.specs.Prelude.{◌≡◌};
ghost use Rattle.farm_rows.specs.Recovery.{comes_after};

/// Whether a row of that kind and id comes after the last one, where there is one.
pub fn comes_after(last: Option<(u8, u64)>, key: (u8, u64)) -> bool
    ensures { result ≡ comes_after last key }
{
    match last {
        None => true,
        Some(last) => last.0 < key.0 || (last.0 == key.0 && last.1 < key.1),
    }
}
