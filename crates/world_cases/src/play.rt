//! Worlds that are played as their lines come.

use crate::tale::Tale;
use case_text::take_lines;
use std::alloc::{AllocError, Global};
use std::rt::Runtime;
use std::{env, io, mem};

/// Whether the program's first word is `play`.
pub fn is_play<R: Runtime + AllocGlobal>(rt: &R) -> io::Result<bool> {
    let mut words = env::args(rt)?;
    let _name = words.next();
    match words.next() {
        None => Ok(false),
        Some(word) => Ok(word.as_str() == "play"),
    }
}

/// Takes the lines of the input, and writes each heading, and each row with what came of it. It ends at the first malformed
/// line, and says whether there was none.
pub fn play<R: Runtime + AllocGlobal>(rt: &R) -> io::Result<bool> {
    let mut stand = Stand::make(rt.alloc())?;
    let played = play_on(rt, &mut stand);
    drop(stand);
    played
}

// The same on a stand where nothing is played yet.
fn play_on<R: Runtime + AllocGlobal>(rt: &R, stand: &mut Stand) -> io::Result<bool> {
    for line in rt.lines(rt.alloc()) {
        let line = line?;
        if !take(rt, stand, line.as_str())? {
            return Ok(false);
        }
    }
    Ok(true)
}

// The world that is played, and the lines above the first heading, which belong to each world.
#[derive(Drop)]
struct Stand {
    tale: Tale,
    shared: String,
    has_heading: bool,
}

impl Stand {
    fn make(alloc: Global) -> Result<Stand, AllocError> {
        Ok(Stand {
            tale: Tale::make(alloc, false)?,
            shared: String::new(alloc),
            has_heading: false,
        })
    }

    // Another world begins.
    fn begin(&mut self, alloc: Global) -> Result<(), AllocError> {
        self.has_heading = true;
        put(&mut self.tale, Tale::make(alloc, false)?);
        let _malformed = take_lines(&mut self.tale, alloc, self.shared.as_str())?;
        Ok(())
    }

    // Keeps a line above the first heading.
    fn share(&mut self, line: &str) -> Result<(), AllocError> {
        if !self.has_heading {
            self.shared.push_str(line)?;
            self.shared.push('\n')?;
        }
        Ok(())
    }
}

// Another world in the place of one.
fn put(tale: &mut Tale, other: Tale) {
    drop(mem::replace(tale, other));
}

// Takes a line, and says whether it isn't malformed.
fn take<R: Print + AllocGlobal>(rt: &R, stand: &mut Stand, line: &str) -> io::Result<bool> {
    if line.starts_with("# ") {
        println!(rt; "{line}")?;
        stand.begin(rt.alloc())?;
        return Ok(true);
    }
    if let Some(malformed) = take_lines(&mut stand.tale, rt.alloc(), line)? {
        println!(rt; "malformed: {malformed}")?;
        return Ok(false);
    }
    print!(rt; "{}", stand.tale.take_came(rt.alloc()))?;
    stand.share(line)?;
    Ok(true)
}
