//! What stands at a path of the machine.

ghost use Rattle.std.specs.Prelude.{◌≢◌};

use crate::fault::FileFault;
use std::alloc::{AllocError, Global};
use std::fs;
use std::fs::OpenOptions;
use std::io::ErrorKind;
use std::path::Path;

// The most bytes of a log that can't hold a commit: its head has 32, and what stands before a page has 24.
const LOG_WITHOUT_COMMIT: u64 = 55;

/// Which of the two files of a database were there before it was opened.
#[derive(Drop)]
pub(crate) struct Places {
    log: String,
    had_file: bool,
    had_log: bool,
}

impl Places {
    pub(crate) fn at(rt: &HostRuntime, path: &str) -> Result<Places, AllocError> {
        let log = log_of(rt, path)?;
        let had_log = is_there(rt, log.as_str());
        Ok(Places {
            log,
            had_file: is_there(rt, path),
            had_log,
        })
    }

    /// Removes what a refused open made, while the files are still held: a log without a commit beside what is no farm's, and else only what is empty.
    /// What was there before stays.
    pub(crate) fn remove_made(&self, rt: &HostRuntime, path: &str, fault: FileFault) {
        let most = match fault {
            FileFault::NoDatabase | FileFault::Foreign => LOG_WITHOUT_COMMIT,
            _ => 0,
        };
        if !self.had_log && is_within(rt, self.log.as_str(), most) {
            let _ = fs::remove_file(rt, self.log.as_str());
        }
        if !self.had_file && is_within(rt, path, 0) {
            let _ = fs::remove_file(rt, path);
        }
    }
}

// The log stands beside the file that a link leads to.
fn log_of(rt: &HostRuntime, path: &str) -> Result<String, AllocError> {
    match fs::canonicalize(rt, path) {
        Ok(real) => format!(in rt.alloc(); "{}-wal", real.as_str()),
        Err(_) => format!(in rt.alloc(); "{path}-wal"),
    }
}

// Whether something has this name, be it a link that leads nowhere.
fn is_there(rt: &HostRuntime, path: &str) -> bool {
    fs::symlink_metadata(rt, path).is_ok()
}

// Whether a plain file of this name has at most so many bytes.
fn is_within(rt: &HostRuntime, path: &str, most: u64) -> bool {
    match fs::symlink_metadata(rt, path) {
        Ok(found) => found.is_file() && found.len() <= most,
        Err(_) => false,
    }
}

/// Why a path can't be opened, as far as what stands there tells.
pub(crate) fn why_closed(rt: &HostRuntime, path: &str) -> FileFault
    ensures { result ≢ FileFault.NoMemory }
{
    match fs::metadata(rt, path) {
        Ok(found) if found.is_dir() => FileFault::Folder,
        Ok(found) if found.is_file() => why_unopened(rt, path),
        Ok(_) => FileFault::Closed,
        Err(error) => why_unseen(rt, path, error.kind()),
    }
}

// Why a file that is there can't be opened.
fn why_unopened(rt: &HostRuntime, path: &str) -> FileFault
    ensures { result ≢ FileFault.NoMemory }
{
    match OpenOptions::new().read(true).write(true).open(rt, path) {
        Err(error) if is_denial(error.kind()) => FileFault::Denied,
        _ => FileFault::Closed,
    }
}

// Why nothing is seen at a path, and nothing can be made there. One that begins with `file:` would be an address to SQLite, and is opened by nobody.
fn why_unseen(rt: &HostRuntime, path: &str, kind: ErrorKind) -> FileFault
    ensures { result ≢ FileFault.NoMemory }
{
    match kind {
        ErrorKind::NotFound if is_there(rt, path) || path.starts_with("file:") => FileFault::Closed,
        ErrorKind::NotFound => why_unmade(rt, path),
        _ if is_denial(kind) => FileFault::Denied,
        _ => FileFault::Closed,
    }
}

// Why no file can be made at a path.
fn why_unmade(rt: &HostRuntime, path: &str) -> FileFault
    ensures { result ≢ FileFault.NoMemory }
{
    match Path::new(path).parent() {
        Some(folder) if folder.as_str() != "" && !is_there(rt, folder.as_str()) => {
            FileFault::NoFolder
        }
        _ => FileFault::Denied,
    }
}

fn is_denial(kind: ErrorKind) -> bool {
    matches!(
        kind,
        ErrorKind::PermissionDenied | ErrorKind::ReadOnlyFilesystem
    )
}
