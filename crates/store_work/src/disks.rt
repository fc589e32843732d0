//! The two files of a store, on disks in memory that stop.

use sqlite::Files;
use sqlite_disk::{Disk, Fuse, Memory};
use std::alloc::{AllocError, Global};
use std::io;

/// A disk in memory that stops after so many calls: each later one fails and changes nothing.
pub type StoppingDisk = Fuse<Memory>;

/// How many calls each disk does before it stops.
#[derive(Clone, Copy, Debug, PartialEq, Eq)]
pub struct Stop {
    pub log: u64,
    pub database: u64,
}

impl Stop {
    /// No stop.
    pub const NEVER: Stop = Stop {
        log: u64::MAX,
        database: u64::MAX,
    };
}

/// The bytes of the two files.
#[derive(Drop)]
pub struct Contents {
    pub log: Vec<u8>,
    pub database: Vec<u8>,
}

impl Contents {
    /// Empty files.
    pub fn none(alloc: Global) -> Contents {
        Contents {
            log: Vec::new(alloc),
            database: Vec::new(alloc),
        }
    }

    /// Disks with these bytes.
    pub fn disks(&self, alloc: Global, stop: Stop) -> io::Result<Files<StoppingDisk>> {
        Ok(Files {
            log: disk_of(alloc, &self.log, stop.log)?,
            db: disk_of(alloc, &self.database, stop.database)?,
        })
    }
}

// A disk with these bytes, all of them synced.
fn disk_of(alloc: Global, bytes: &[u8], calls: u64) -> io::Result<StoppingDisk> {
    let mut disk = Memory::new(alloc);
    disk.write_at(0, bytes)?;
    disk.sync()?;
    Ok(Fuse::new(disk, calls))
}

/// Whether a disk stopped, or stops at its next call.
pub fn has_stopped(disk: &mut StoppingDisk) -> bool {
    !disk.may_be_used() || disk.len().is_err()
}

/// The bytes that a disk shows.
pub fn bytes_of(alloc: Global, disk: &StoppingDisk) -> Result<Vec<u8>, AllocError> {
    Vec::from_slice(alloc, disk.inner().bytes())
}
