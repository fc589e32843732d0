//! Disks in memory.

use crate::disks::{Contents, Stop, StoppingDisk};
use crate::work::Work;
use keeper_sqlite::SqliteKeeper;
use sqlite::{Alter, Connection, FileStore, Files, Options};
use sqlite_disk::Disk;
use std::alloc::Global;

// The table of the keeper.
const TABLE: &str =
    "CREATE TABLE rows (kind INTEGER NOT NULL, id INTEGER NOT NULL, bytes BLOB NOT NULL, PRIMARY KEY (kind, id)) STRICT";

/// How far a store came before its disks stopped, and the disks as they are then.
#[derive(Drop)]
pub struct Worked {
    pub reached: Reached,
    pub files: Files<StoppingDisk>,
}

/// How far a store comes.
#[derive(Clone, Copy, Debug, PartialEq, Eq)]
pub enum Reached {
    /// The files weren't opened.
    Disks,
    /// There was a connection, and no keeper over it.
    Connection,
    /// There was a keeper, and the work was done over it.
    Keeper,
}

/// Why nothing can be said of disks.
#[derive(Clone, Copy, Debug, PartialEq, Eq)]
pub enum DiskFault {
    /// One failed that wasn't to stop.
    Failed,
    /// When the same was done once more they stopped at another call.
    StoppedElsewhere,
}

/// Works over a keeper of rows in files with these contents, on disks that stop so.
pub fn work_over_disks<W: Work>(
    alloc: Global,
    contents: &Contents,
    stop: Stop,
    work: &mut W,
) -> Result<Worked, DiskFault> {
    match reach(alloc, contents, stop, false, work)? {
        (reached, Some(files)) => Ok(Worked { reached, files }),
        (reached, None) => Ok(Worked {
            reached,
            files: files_without_keeper(alloc, contents, stop, work)?,
        }),
    }
}

// The disks as they are where they stop while the keeper is made: the same is done once more by hand, since a keeper that can't be made doesn't give
// them back. Behind the table it only reads.
fn files_without_keeper<W: Work>(
    alloc: Global,
    contents: &Contents,
    stop: Stop,
    work: &mut W,
) -> Result<Files<StoppingDisk>, DiskFault> {
    match reach(alloc, contents, stop, true, work)? {
        (Reached::Keeper, Some(files)) => Ok(files),
        _ => Err(DiskFault::StoppedElsewhere),
    }
}

// Works over a keeper on new disks, or where it is by hand makes only what the keeper makes. The disks are given back unless there is a connection
// and no keeper.
fn reach<W: Work>(
    alloc: Global,
    contents: &Contents,
    stop: Stop,
    by_hand: bool,
    work: &mut W,
) -> Result<(Reached, Option<Files<StoppingDisk>>), DiskFault> {
    let Ok(files) = contents.disks(alloc, stop) else {
        return Err(DiskFault::Failed);
    };
    if !files.may_be_used() {
        return Err(DiskFault::Failed);
    }
    match Connection::open_files(alloc, files, options()) {
        Ok(connection) => match file_store_behind(alloc, connection, by_hand, work) {
            Some(store) => Ok((Reached::Keeper, Some(store.close()))),
            None => Ok((Reached::Connection, None)),
        },
        Err((_, left)) => Ok((Reached::Disks, Some(left.into_files()))),
    }
}

// Few pages are kept in memory, so that a large batch goes to the log in parts, and the log is copied into the database file at each few pages: stops
// come within these too.
fn options() -> Options {
    let mut options = Options::new(1);
    options.cache_pages = 64;
    options.spill_pages = 12;
    options.checkpoint_frames = 40;
    options
}

// `store_behind` for the stores of any disks. That such a store is one takes long to check, so one function rests on it, and for no disk in
// particular.
fn file_store_behind<D: Disk + Drop, W: Work>(
    alloc: Global,
    connection: Connection<FileStore<D>>,
    by_hand: bool,
    work: &mut W,
) -> Option<FileStore<D>> {
    store_behind(alloc, connection, by_hand, work)
}

// The store of a connection behind the work, or behind the keeper's table alone where it is by hand; none where there is no keeper.
fn store_behind<S: Alter + Drop, W: Work>(
    alloc: Global,
    mut connection: Connection<S>,
    by_hand: bool,
    work: &mut W,
) -> Option<S> {
    if by_hand {
        let _ = connection.execute(TABLE, &[]);
        return Some(connection.into_store());
    }
    match SqliteKeeper::over(alloc, connection) {
        Ok(keeper) => Some(work.work(alloc, keeper).into_connection().into_store()),
        Err(_) => None,
    }
}
