//! Folders of the machine.

use std::path::PathBuf;
use std::rt::{Clock, Runtime};
use std::{env, fs, io};

/// A folder that wasn't there, among the machine's temporary files.
pub fn new_folder<R: Runtime + AllocGlobal>(rt: &R) -> io::Result<PathBuf> {
    let now = rt.since_1970()?;
    let name = format!(in rt.alloc(); "store-cases-{}-{}", now.as_secs(), now.subsec_nanos())?;
    let folder = env::temp_dir(rt)?.join(rt.alloc(), name.as_str())?;
    fs::create_dir(rt, folder.as_path())?;
    Ok(folder)
}

/// What stands in a folder under a name, with the bytes of a file that may be read.
#[derive(PartialEq, Drop)]
pub struct Entry {
    pub name: String,
    bytes: Option<Vec<u8>>,
}

/// All that stands in a folder, by name.
pub fn entries_of<R: Runtime + AllocGlobal>(rt: &R, folder: &str) -> io::Result<Vec<Entry>> {
    let mut entries = Vec::new(rt.alloc());
    for name in names_in(rt, folder)? {
        let path = format!(in rt.alloc(); "{folder}/{name}")?;
        entries.push(Entry {
            name,
            bytes: fs::read(rt, path.as_str()).ok(),
        })?;
    }
    Ok(entries)
}

// The names in a folder, in order.
fn names_in<R: Runtime + AllocGlobal>(rt: &R, folder: &str) -> io::Result<Vec<String>> {
    let mut names = Vec::new(rt.alloc());
    for entry in fs::read_dir(rt, folder)? {
        let entry = entry?;
        names.push(String::from_str(rt.alloc(), entry.file_name())?)?;
    }
    names.sort()?;
    Ok(names)
}

/// The name of the first entry that isn't the same among others.
pub fn first_other<'a>(entries: &'a [Entry], others: &[Entry]) -> Option<&'a str> {
    for entry in entries {
        if !others.contains(entry) {
            return Some(entry.name.as_str());
        }
    }
    None
}
