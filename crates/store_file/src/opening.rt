//! A keeper over the file at a path.

ghost use Rattle.std.specs.Prelude.{◌≡◌, ◌↔◌, IfOk};
ghost use Rattle.sqlite_wal.specs.Files.{image_at};
ghost use Rattle.sqlite.specs.Files.{file_state, IsOpened};
ghost use Rattle.sqlite.specs.Start.{FindsIn};
ghost use Rattle.sqlite.specs.State.{HasCleanDisk};
ghost use Rattle.store_file.specs.Kept.{HasKeptFile};

use crate::fault::FileFault;
use crate::places::{Places, why_closed};
use farm_keeper::KeeperFault;
use keeper_sqlite::SqliteKeeper;
use sqlite::{Connection, Error, ErrorCode, FileFrom, FileStore, Start};

/// A keeper whose rows are in a file.
pub type FileKeeper<S> = SqliteKeeper<FileStore<FileFrom<S>>>;

/// Opens the file at a path, or makes it. It is held until the keeper is dropped. `S` stands for what the file and its log hold; no clause ties them
/// to the path. A file that is refused stays as it was.
pub fn open_keeper<S: Start>(
    rt: &HostRuntime,
    path: &str,
    start: S,
) -> Result<FileKeeper<S>, FileFault>
    ensures kept { IfOk result (λ keeper. HasCleanDisk (file_state keeper.conn) → HasKeptFile (image_at S.Start) (file_state keeper.conn)) }
    ensures count { IfOk result (λ keeper. keeper.faults ≡ 0) }
{
    let Ok(places) = Places::at(rt, path) else {
        return Err(FileFault::NoMemory);
    };
    match Connection::open_from(rt, path, false, start) {
        Ok(connection) => keep(rt, path, &places, connection),
        Err((error, None)) => Err(fault_of(rt, path, error)),
        Err((error, Some(left))) => {
            let fault = fault_of(rt, path, error);
            places.remove_made(rt, path, fault);
            drop(left);
            Err(fault)
        }
    }
}

// A keeper over an open file.
fn keep<S: Start>(
    rt: &HostRuntime,
    path: &str,
    places: &Places,
    connection: Connection<FileStore<FileFrom<S>>>,
) -> Result<FileKeeper<S>, FileFault>
    requires opened { HasCleanDisk (file_state connection) → IsOpened connection }
    requires found { HasCleanDisk (file_state connection) → FindsIn (image_at S.Start) (file_state connection) }
    ensures kept { IfOk result (λ keeper. HasCleanDisk (file_state keeper.conn) → HasKeptFile (image_at S.Start) (file_state keeper.conn)) }
    ensures count { IfOk result (λ keeper. keeper.faults ≡ 0) }
{
    if !SqliteKeeper::takes(&connection) {
        places.remove_made(rt, path, FileFault::Foreign);
        return Err(FileFault::Foreign);
    }
    match SqliteKeeper::over(rt.alloc(), connection) {
        Ok(keeper) => Ok(keeper),
        Err(KeeperFault::NoMemory) => Err(FileFault::NoMemory),
        Err(KeeperFault::Failed) => Err(FileFault::Failed),
    }
}

// What an error of an open says of the file.
fn fault_of(rt: &HostRuntime, path: &str, error: Error) -> FileFault
    ensures memory { (result ≡ FileFault.NoMemory) ↔ (error ≡ Error.SqliteFailure ErrorCode.OutOfMemory) }
    ensures held { error ≡ Error.SqliteFailure ErrorCode.DatabaseBusy → result ≡ FileFault.Held }
    ensures other { error ≡ Error.SqliteFailure ErrorCode.NotADatabase → result ≡ FileFault.NoDatabase }
{
    match error {
        Error::SqliteFailure(ErrorCode::OutOfMemory) => FileFault::NoMemory,
        Error::SqliteFailure(ErrorCode::DatabaseBusy) => FileFault::Held,
        Error::SqliteFailure(ErrorCode::NotADatabase | ErrorCode::DatabaseCorrupt) => {
            FileFault::NoDatabase
        }
        Error::SqliteFailure(ErrorCode::CannotOpen) => why_closed(rt, path),
        Error::SqliteFailure(ErrorCode::DiskFull) => FileFault::Full,
        _ => FileFault::Failed,
    }
}
