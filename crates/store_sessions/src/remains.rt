//! What a stop of the machine may leave of the two files.

use sqlite::Files;
use sqlite_disk::Crash;
use std::alloc::{AllocError, Global};
use store_work::{Contents, StoppingDisk, bytes_of};

/// What is left of what was written and wasn't synced: of each file all, nothing, or the first half; or all of one file and nothing of the other.
#[derive(Clone, Copy, Debug, PartialEq, Eq)]
pub enum Leaving {
    All,
    Nothing,
    Half,
    LogAlone,
    DatabaseAlone,
}

/// Each of them.
pub const LEAVINGS: [Leaving; 5] = [
    Leaving::All,
    Leaving::Nothing,
    Leaving::Half,
    Leaving::LogAlone,
    Leaving::DatabaseAlone,
];

// The bytes of a file: those that were written, and those that were there at the last sync.
#[derive(Drop)]
struct Remains {
    written: Vec<u8>,
    synced: Vec<u8>,
}

impl Remains {
    fn of(alloc: Global, mut disk: StoppingDisk) -> Result<Remains, AllocError> {
        let written = bytes_of(alloc, &disk)?;
        disk.crash();
        let synced = bytes_of(alloc, &disk)?;
        Ok(Remains { written, synced })
    }

    fn all(&self, alloc: Global) -> Result<Vec<u8>, AllocError> {
        Vec::from_slice(alloc, &self.written)
    }

    fn nothing(&self, alloc: Global) -> Result<Vec<u8>, AllocError> {
        Vec::from_slice(alloc, &self.synced)
    }

    // Whether nothing was written since the last sync.
    fn is_synced(&self) -> bool {
        self.written == self.synced
    }

    // The written bytes up to the middle of those that differ, and then the synced ones.
    fn half(&self, alloc: Global) -> Result<Vec<u8>, AllocError> {
        let middle = middle_of_difference(&self.written, &self.synced);
        let mut bytes = Vec::from_slice(
            alloc,
            self.written.get(..middle).unwrap_or(&self.written),
        )?;
        bytes.extend_from_slice(self.synced.get(middle..).unwrap_or(&[]))?;
        Ok(bytes)
    }
}

// The place in the middle between the first byte that differs and the last.
fn middle_of_difference(one: &[u8], other: &[u8]) -> usize {
    let mut first: Option<usize> = None;
    let mut last: usize = 0;
    for place in 0..one.len().max(other.len()) {
        if one.get(place) != other.get(place) {
            first = Some(first.unwrap_or(place));
            last = place;
        }
    }
    let first = first.unwrap_or(0);
    first.saturating_add(last.saturating_sub(first) / 2)
}

/// What stops may leave of both files.
#[derive(Drop)]
pub struct BothRemains {
    log: Remains,
    database: Remains,
}

impl BothRemains {
    /// What a stop at this moment may leave.
    pub fn of(alloc: Global, files: Files<StoppingDisk>) -> Result<BothRemains, AllocError> {
        let Files { log, db } = files;
        Ok(BothRemains {
            log: Remains::of(alloc, log)?,
            database: Remains::of(alloc, db)?,
        })
    }

    /// Whether files that are left so are others than in the ways before it.
    pub fn is_new(&self, leaving: Leaving) -> bool {
        let (log, database) = (self.log.is_synced(), self.database.is_synced());
        match leaving {
            Leaving::All => true,
            Leaving::Nothing | Leaving::Half => !(log && database),
            Leaving::LogAlone | Leaving::DatabaseAlone => !log && !database,
        }
    }

    /// The files that are left so.
    pub fn contents(&self, alloc: Global, leaving: Leaving) -> Result<Contents, AllocError> {
        let (log, database) = (&self.log, &self.database);
        let (log, database) = match leaving {
            Leaving::All => (log.all(alloc)?, database.all(alloc)?),
            Leaving::Nothing => (log.nothing(alloc)?, database.nothing(alloc)?),
            Leaving::Half => (log.half(alloc)?, database.half(alloc)?),
            Leaving::LogAlone => (log.all(alloc)?, database.nothing(alloc)?),
            Leaving::DatabaseAlone => (log.nothing(alloc)?, database.all(alloc)?),
        };
        Ok(Contents { log, database })
    }
}
