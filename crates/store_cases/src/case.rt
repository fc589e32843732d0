//! A case: steps that are taken in a folder, and what they have to tell.

use crate::answering::answer;
use crate::opening::{hold, open};
use crate::place::{Place, tell};
use crate::rows::{list, put};
use case_text::{LineFault, Told, add_line, number_of, numbers_of};
use std::alloc::{AllocError, Global};
use std::os::unix::fs::PermissionsExt;
use std::{fs, io, str};
use store_work::make_database;

/// The folder of a case, what has to be told of its steps, and what came.
#[derive(Drop)]
pub struct Case<'a> {
    rt: &'a HostRuntime,
    folder: &'a str,
    /// The lines that the next step takes.
    given: Vec<u8>,
    /// Which of the keeper's calls fails in the next session, by its number from 1.
    failing: Option<u64>,
    pub told: Vec<u8>,
    pub came: Vec<u8>,
}

impl<'a> Case<'a> {
    /// A case in an empty folder.
    pub fn over(rt: &'a HostRuntime, folder: &'a str) -> Case<'a> {
        let alloc = rt.alloc();
        Case {
            rt,
            folder,
            given: Vec::new(alloc),
            failing: None,
            told: Vec::new(alloc),
            came: Vec::new(alloc),
        }
    }
}

impl Told for Case<'_> {
    fn is_pasted(&self, line: &str) -> bool {
        line.starts_with('>') || line.starts_with('<')
    }

    // Takes a line that is given, or one that has to come.
    fn paste(&mut self, alloc: Global, line: &str) -> Result<(), LineFault> {
        if let Some(given) = line.strip_prefix('>') {
            add_line(alloc, &mut self.given, given)
        } else if let Some(told) = line.strip_prefix('<') {
            add_line(alloc, &mut self.told, told)
        } else {
            Err(LineFault::Malformed)
        }
    }

    // Takes a step, or which call fails in the next one.
    fn set(&mut self, alloc: Global, name: &str, value: &str) -> Result<(), LineFault> {
        if name == "failing call" {
            self.failing = Some(u64::from(number_of(value)?));
            return Ok(());
        }
        let path = format!(in alloc; "{}/{value}", self.folder)?;
        let place = Place {
            rt: self.rt,
            folder: self.folder,
            path: path.as_str(),
        };
        step(place, name, &self.given, self.failing, &mut self.came)?;
        self.given.clear();
        self.failing = None;
        Ok(())
    }
}

// Takes a step with the lines that are given.
fn step(
    place: Place<'_>,
    name: &str,
    given: &[u8],
    failing: Option<u64>,
    came: &mut Vec<u8>,
) -> Result<(), LineFault> {
    let text = str::from_utf8(given).unwrap_or("");
    let done = match name {
        "text" => fs::write(place.rt, place.path, given),
        "database" => make(place, text, came),
        "folder" => fs::create_dir(place.rt, place.path),
        "forbid" => fs::set_permissions(place.rt, place.path, fs::Permissions::from_mode(0)),
        "remove" => fs::remove_file(place.rt, place.path),
        "open" => open(place, came),
        "hold" => hold(place, came),
        "put" => put(place, &numbers_of(place.alloc(), text)?, came),
        "rows" => list(place, came),
        "answer" => answer(place, given, failing, came),
        _ => return Err(LineFault::Malformed),
    };
    match done {
        Ok(()) => Ok(()),
        Err(error) => Ok(tell_error(place.alloc(), &error, came)?),
    }
}

// Makes the database of a text.
fn make(place: Place<'_>, text: &str, came: &mut Vec<u8>) -> io::Result<()> {
    if make_database(place.rt, place.path, text).is_err() {
        tell(came, "no database is made")?;
    }
    Ok(())
}

// Tells why a step can't be taken.
fn tell_error(alloc: Global, error: &io::Error, came: &mut Vec<u8>) -> Result<(), AllocError> {
    let line = format!(in alloc; "{error}")?;
    tell(came, line.as_str())
}
