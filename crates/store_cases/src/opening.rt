//! Opens of files.

use crate::folder::{entries_of, first_other};
use crate::place::{Place, tell};
use farm_keeper::Keeper;
use std::alloc::Global;
use std::io;
use store_work::{Work, work_over_file};

// No work.
#[derive(Drop)]
struct Nothing;

impl Work for Nothing {
    fn work<K: Keeper>(&mut self, _: Global, keeper: K) -> K {
        keeper
    }
}

// What is wrong with a file, and what in its folder is changed by the open, the first by name; or `opened`.
fn opened(place: Place<'_>) -> io::Result<String> {
    let before = entries_of(place.rt, place.folder)?;
    let Err(fault) = work_over_file(place.rt, place.path, &mut Nothing) else {
        return Ok(String::from_str(place.alloc(), "opened")?);
    };
    let after = entries_of(place.rt, place.folder)?;
    let changed = first_other(&after, &before)
        .or(first_other(&before, &after))
        .unwrap_or("nothing");
    Ok(format!(in place.alloc(); "{fault}, and {changed} is changed")?)
}

/// Opens a file, and tells what is wrong with it where it is refused.
pub fn open(place: Place<'_>, came: &mut Vec<u8>) -> io::Result<()> {
    let line = opened(place)?;
    tell(came, line.as_str())?;
    Ok(())
}

// A second open of a file, while it is held.
#[derive(Drop)]
struct Holding<'a> {
    place: Place<'a>,
    second: io::Result<String>,
}

impl Work for Holding<'_> {
    fn work<K: Keeper>(&mut self, _: Global, keeper: K) -> K {
        self.second = opened(self.place);
        keeper
    }
}

/// Opens a file, and while it is held opens it again, of which is told.
pub fn hold(place: Place<'_>, came: &mut Vec<u8>) -> io::Result<()> {
    let mut holding = Holding {
        place,
        second: Ok(String::new(place.alloc())),
    };
    if place.work(&mut holding, came)? {
        let line = holding.second?;
        tell(came, line.as_str())?;
    }
    Ok(())
}
