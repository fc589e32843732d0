//! Rows, and batches of them.

ghost use Rattle.std.specs.Prelude.{◌≡◌, IfOk};

use farm_types::Items;
use std::alloc::{AllocError, Global};

/// Bytes under a kind and an id.
#[derive(Debug, Drop)]
pub struct Row {
    pub kind: u8,
    pub id: u64,
    pub bytes: Items<u8>,
}

/// Rows to be put and, by kind and id, rows to be deleted, all of them or none. No kind and id should stand twice in a
/// batch; where they do, puts come before deletes, and the last of each counts.
#[derive(Debug, Drop)]
pub struct Batch {
    pub puts: Items<Row>,
    pub deletes: Items<(u8, u64)>,
}

impl Row {
    /// An equal row.
    pub fn copy(&self, alloc: Global) -> Result<Row, AllocError>
        ensures { IfOk result (λ copy. copy ≡ self.now) }
    {
        Ok(Row {
            kind: self.kind,
            id: self.id,
            bytes: self.bytes.copy(alloc)?,
        })
    }
}

impl Batch {
    /// An equal batch.
    pub fn copy(&self, alloc: Global) -> Result<Batch, AllocError>
        ensures { IfOk result (λ copy. copy ≡ self.now) }
    {
        Ok(Batch {
            puts: Items::from_vec(copies_of(alloc, self.puts.as_slice())?),
            deletes: self.deletes.copy(alloc)?,
        })
    }
}

/// Equal rows.
pub(crate) fn copies_of(alloc: Global, rows: &[Row]) -> Result<Vec<Row>, AllocError>
    ensures { IfOk result (λ copies. copies.items ≡ rows.now) }
{
    let mut copies = Vec::with_capacity(alloc, rows.len())?;
    for row in rows {
        copies.push(row.copy(alloc)?)?;
    }
    Ok(copies)
}
