//! Files of the machine.

use crate::work::Work;
use keeper_sqlite::SqliteKeeper;
use sqlite::{Alter, Connection, Error, FileStore, Unknown};
use sqlite_disk::Disk;
use std::alloc::Global;
use store_file::{FileFault, open_keeper};

/// Works over a keeper whose rows are in the file at a path, and lets go of the file.
pub fn work_over_file<W: Work>(
    rt: &HostRuntime,
    path: &str,
    work: &mut W,
) -> Result<(), FileFault> {
    match open_keeper(rt, path, Unknown) {
        Ok(keeper) => {
            work_on_disk(rt.alloc(), keeper, work);
            Ok(())
        }
        Err(fault) => Err(fault),
    }
}

// The same over a keeper that is there, for the files of any disk.
fn work_on_disk<D: Disk + Drop, W: Work>(
    alloc: Global,
    keeper: SqliteKeeper<FileStore<D>>,
    work: &mut W,
) {
    work_and_let_go(alloc, keeper, work);
}

fn work_and_let_go<S: Alter + Drop, W: Work>(alloc: Global, keeper: SqliteKeeper<S>, work: &mut W) {
    drop(work.work(alloc, keeper));
}

/// Makes the database that a text makes, in the file at a path.
pub fn make_database(rt: &HostRuntime, path: &str, text: &str) -> Result<(), Error> {
    let (connection, made) = executed_on_disk(Connection::open(rt, path)?, text);
    let closed = connection.close();
    made?;
    closed
}

// The same over a connection that is there, for the files of any disk.
fn executed_on_disk<D: Disk>(
    connection: Connection<FileStore<D>>,
    text: &str,
) -> (Connection<FileStore<D>>, Result<(), Error>) {
    executed(connection, text)
}

fn executed<S: Alter>(
    mut connection: Connection<S>,
    text: &str,
) -> (Connection<S>, Result<(), Error>) {
    let made = connection.execute_batch(text);
    (connection, made)
}
