//! Stores on disks in memory: sessions over them, and the rows that they hold.

use crate::fault::{Fault, wrong};
use crate::sessions::{Session, Told};
use farm_keeper::{Keeper, KeeperFault, Row};
use farm_types::Items;
use sqlite::Files;
use std::alloc::Global;
use store_work::{
    Contents, DiskFault, Reached, Stop, StoppingDisk, Work, Worked, bytes_of, work_over_disks,
};

/// A session over a store: what it told, and the disks. It wasn't opened where the disks stopped before there was a keeper.
#[derive(Drop)]
pub struct Ran {
    pub is_opened: bool,
    pub told: Told,
    pub files: Files<StoppingDisk>,
}

// The rows of a keeper, where there was one.
#[derive(Drop)]
struct Loading {
    rows: Option<Result<Items<Row>, KeeperFault>>,
}

impl Work for Loading {
    fn work<K: Keeper>(&mut self, alloc: Global, mut keeper: K) -> K {
        self.rows = Some(keeper.load(alloc));
        keeper
    }
}

/// Runs a session of these lines over files with these contents, on disks that stop so.
pub fn run_over(
    alloc: Global,
    contents: &Contents,
    stop: Stop,
    lines: &[u8],
) -> Result<Ran, Fault> {
    let mut session = Session::of(lines, None);
    let Worked { reached, files } = worked(alloc, contents, stop, &mut session)?;
    Ok(Ran {
        is_opened: reached == Reached::Keeper,
        told: session.into_told(alloc)?,
        files,
    })
}

fn worked<W: Work>(
    alloc: Global,
    contents: &Contents,
    stop: Stop,
    work: &mut W,
) -> Result<Worked, Fault> {
    match work_over_disks(alloc, contents, stop, work) {
        Ok(worked) => Ok(worked),
        Err(DiskFault::Failed) => Err(Fault::Disk),
        Err(DiskFault::StoppedElsewhere) => Err(wrong(alloc, "disks stopped at another call")),
    }
}

/// The rows that a keeper finds in files with these contents.
pub fn rows_in(alloc: Global, contents: &Contents) -> Result<Items<Row>, Fault> {
    let mut loading = Loading { rows: None };
    let worked = worked(alloc, contents, Stop::NEVER, &mut loading)?;
    match (worked.reached, loading.rows) {
        (Reached::Disks, _) => Err(wrong(alloc, "the files aren't opened again")),
        (_, None) => Err(wrong(alloc, "the database is refused")),
        (_, Some(Err(_))) => Err(wrong(alloc, "the rows aren't loaded")),
        (_, Some(Ok(rows))) => Ok(rows),
    }
}

/// The bytes of the files as they are.
pub fn contents_of(alloc: Global, files: &Files<StoppingDisk>) -> Result<Contents, Fault> {
    Ok(Contents {
        log: bytes_of(alloc, &files.log)?,
        database: bytes_of(alloc, &files.db)?,
    })
}
