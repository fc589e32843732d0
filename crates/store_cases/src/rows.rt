//! Rows of files.

use crate::place::{Place, tell};
use farm_keeper::{Batch, Keeper, KeeperFault, Row};
use farm_types::Items;
use std::alloc::{AllocError, Global};
use std::io;
use store_work::Work;

// The kind of the rows that are put.
const KIND: u8 = 2;

// Rows that are to be put, until they are handed over, and whether they were taken.
#[derive(Drop)]
struct Putting {
    batch: Option<Batch>,
    is_taken: bool,
}

impl Work for Putting {
    fn work<K: Keeper>(&mut self, alloc: Global, mut keeper: K) -> K {
        if let Some(batch) = self.batch.take() {
            self.is_taken = keeper.commit(alloc, batch).is_ok();
        }
        keeper
    }
}

/// Puts rows with these ids into a file, in one batch, and tells whether it was taken.
pub fn put(place: Place<'_>, ids: &[u64], came: &mut Vec<u8>) -> io::Result<()> {
    let mut putting = Putting {
        batch: Some(puts_of(place.alloc(), ids)?),
        is_taken: false,
    };
    if place.work(&mut putting, came)? {
        let line = if putting.is_taken { "taken" } else { "failed" };
        tell(came, line)?;
    }
    Ok(())
}

// A batch that puts rows without bytes.
fn puts_of(alloc: Global, ids: &[u64]) -> Result<Batch, AllocError> {
    let mut puts = Items::new(alloc);
    for id in ids {
        puts.push(Row {
            kind: KIND,
            id: *id,
            bytes: Items::new(alloc),
        })?;
    }
    Ok(Batch {
        puts,
        deletes: Items::new(alloc),
    })
}

// The rows of a keeper.
#[derive(Drop)]
struct Loading {
    rows: Result<Items<Row>, KeeperFault>,
}

impl Work for Loading {
    fn work<K: Keeper>(&mut self, alloc: Global, mut keeper: K) -> K {
        self.rows = keeper.load(alloc);
        keeper
    }
}

/// Tells the ids of the rows that a file has.
pub fn list(place: Place<'_>, came: &mut Vec<u8>) -> io::Result<()> {
    let mut loading = Loading {
        rows: Ok(Items::new(place.alloc())),
    };
    if place.work(&mut loading, came)? {
        tell_rows(place.alloc(), loading.rows, came)?;
    }
    Ok(())
}

fn tell_rows(
    alloc: Global,
    rows: Result<Items<Row>, KeeperFault>,
    came: &mut Vec<u8>,
) -> Result<(), AllocError> {
    let Ok(rows) = rows else {
        return tell(came, "failed");
    };
    for row in rows.as_slice() {
        let line = format!(in alloc; "{}", row.id)?;
        tell(came, line.as_str())?;
    }
    Ok(())
}
