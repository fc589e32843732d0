//! What is wrong with a file.

use std::error::Error;
use std::fmt;

/// Why a file can't be the store of a farm.
#[derive(Clone, Copy, Debug, PartialEq, Eq)]
pub enum FileFault {
    /// Another process has it open.
    Held,
    /// There is a folder of its name.
    Folder,
    /// The folder in which it would stand isn't there.
    NoFolder,
    /// It may not be read and written, or not be made.
    Denied,
    /// It, or the log beside it, can't be opened for another cause.
    Closed,
    /// It holds no database that can be read.
    NoDatabase,
    /// It holds the database of another program.
    Foreign,
    /// The disk failed, or its rows can't be read.
    Failed,
    /// The disk is full.
    Full,
    /// There was no memory.
    NoMemory,
}

impl fmt::Display for FileFault {
    fn fmt<W: fmt::Write>(&self, f: &mut fmt::Formatter<W>) -> fmt::Result {
        f.write_str(match self {
            FileFault::Held => "another process holds the file",
            FileFault::Folder => "it is a folder",
            FileFault::NoFolder => "its folder isn't there",
            FileFault::Denied => "there is no permission to read and write it",
            FileFault::Closed => "it, or the log beside it, can't be opened",
            FileFault::NoDatabase => "it holds no database that can be read",
            FileFault::Foreign => "it holds the database of another program",
            FileFault::Failed => "the disk failed, or its rows can't be read",
            FileFault::Full => "the disk is full",
            FileFault::NoMemory => "out of memory",
        })
    }
}

impl Error for FileFault {}
