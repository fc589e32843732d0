//! Which files are read.

use std::rt::Runtime;
use std::{env, fs, io};

/// The files that the words name, or where there are no words those of the folder whose names end in `.case`, in order.
pub fn file_names<R: Runtime + AllocGlobal>(rt: &R) -> io::Result<Vec<String>> {
    let mut names = Vec::new(rt.alloc());
    for word in env::args(rt)?.skip(1) {
        names.push(word)?;
    }
    if names.is_empty() {
        return files_here(rt);
    }
    Ok(names)
}

// The folder's files whose names end in `.case`, in order.
fn files_here<R: Runtime + AllocGlobal>(rt: &R) -> io::Result<Vec<String>> {
    let mut names = Vec::new(rt.alloc());
    for entry in fs::read_dir(rt, ".")? {
        let entry = entry?;
        let name = entry.file_name();
        if name.ends_with(".case") {
            names.push(String::from_str(rt.alloc(), name)?)?;
        }
    }
    names.sort()?;
    Ok(names)
}
