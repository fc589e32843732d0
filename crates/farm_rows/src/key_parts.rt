//! A key as numbers: its kind, and the numbers that it has.

ghost use Rattle.std.specs.Prelude.{◌≡◌};
ghost use Rattle.farm_rows.specs.Keys.{key_parts};

use crate::row_key::RowKey;

/// The number of the key's kind, and those that it has.
pub(crate) fn key_parts(key: &RowKey) -> (u8, u32, u32)
    ensures { result ≡ key_parts key.now }
{
    match key {
        RowKey::Head => (0, 0, 0),
        RowKey::Show { show } => (1, u32::from(show.0), 0),
        RowKey::Alloc { alloc } => (2, u32::from(alloc.0), 0),
        RowKey::Sub { sub } => (3, u32::from(sub.0), 0),
        RowKey::Host { host } => (4, u32::from(host.0), 0),
        RowKey::Job { job } => (5, job.0, 0),
        RowKey::Layer { job, place } => (6, job.0, *place),
        RowKey::Frame { slot } => (7, slot.0, 0),
        RowKey::Depend { depend } => (8, depend.0, 0),
        RowKey::Met { depend, position } => (9, depend.0, *position),
        RowKey::Limit { limit } => (10, u32::from(limit.0), 0),
    }
}
