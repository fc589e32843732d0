//! What the lines of a case tell, as they come.

use crate::asks::{Ask, ask_of, is_row};
use crate::head::Head;
use crate::outcome::outcome;
use crate::stage::Stage;
use case_text::{LineFault, Told};
use std::alloc::{AllocError, Global};
use std::mem;

/// A world whose lines are taken one after the other: first what it begins with, then what happens.
#[derive(Drop)]
pub struct Tale {
    head: Head,
    stage: Option<Stage>,
    // Of the last event that told one (seconds).
    moment: u64,
    // Whether each row has to say what comes of it.
    compares: bool,
    // What differed first, and the rows with what came of them, each with its newline.
    found: Option<String>,
    came: String,
}

impl Tale {
    /// A world of which nothing is told. Where `compares` is true each row has to say what comes of it, and else none has to, and what came is kept.
    pub fn make(alloc: Global, compares: bool) -> Result<Tale, AllocError> {
        Ok(Tale {
            head: Head::make(alloc)?,
            stage: None,
            moment: 0,
            compares,
            found: None,
            came: String::new(alloc),
        })
    }

    /// Whether something has happened, or was read.
    pub fn has_begun(&self) -> bool {
        self.stage.is_some()
    }

    /// What differed first, since the last call.
    pub fn take_found(&mut self) -> Option<String> {
        mem::replace(&mut self.found, None)
    }

    /// What came since the last call.
    pub fn take_came(&mut self, alloc: Global) -> String {
        mem::replace(&mut self.came, String::new(alloc))
    }

    // Takes a row, as `send h1 -> line 4: boot nonce 7`.
    fn take_row(&mut self, alloc: Global, line: &str) -> Result<(), LineFault> {
        let (row, told) = told_in(line);
        match ask_of(row) {
            Err(fault) => Err(fault),
            Ok(ask) => self.take(alloc, row, told, &ask),
        }
    }

    // Plays a row, and compares or keeps what comes of it.
    fn take(
        &mut self,
        alloc: Global,
        row: &str,
        told: Option<&str>,
        ask: &Ask<'_>,
    ) -> Result<(), LineFault> {
        self.moment = moment_of(ask).unwrap_or(self.moment);
        let came = self.play(alloc, ask)?;
        if self.compares {
            self.compare(alloc, row, told, came.as_str())
        } else {
            self.keep(alloc, row, came.as_str())
        }
    }

    // What comes of what a row asks. The first one begins the world.
    fn play(&mut self, alloc: Global, ask: &Ask<'_>) -> Result<String, LineFault> {
        self.begin(alloc)?;
        match &mut self.stage {
            None => Err(LineFault::Malformed),
            Some(stage) => outcome(alloc, stage, ask, self.moment),
        }
    }

    // The world has begun.
    fn begin(&mut self, alloc: Global) -> Result<(), LineFault> {
        if self.has_begun() {
            return Ok(());
        }
        let head = take_head(alloc, &mut self.head)?;
        put(&mut self.stage, Stage::begin(alloc, head)?);
        Ok(())
    }

    // Notes what differs first.
    fn compare(
        &mut self,
        alloc: Global,
        row: &str,
        told: Option<&str>,
        came: &str,
    ) -> Result<(), LineFault> {
        if self.found.is_some() || told == Some(came) {
            return Ok(());
        }
        let found = match told {
            None => format!(in alloc; "`{row}` comes to `{came}`, and the row doesn't say so")?,
            Some(told) => format!(in alloc;
                "`{row}` comes to `{came}` and should come to `{told}`"
            )?,
        };
        self.found = Some(found);
        Ok(())
    }

    // Keeps a row with what came of it.
    fn keep(&mut self, alloc: Global, row: &str, came: &str) -> Result<(), LineFault> {
        let line = format!(in alloc; "{row} -> {came}\n")?;
        self.came.push_str(line.as_str())?;
        Ok(())
    }

    // The farm has recorded what a line asks for.
    fn record(&mut self, alloc: Global, line: &str) -> Result<(), LineFault> {
        self.is_to_begin()?;
        self.head.record(alloc, line)
    }

    // An operator has sent a line.
    fn ask(&mut self, alloc: Global, line: &str) -> Result<(), LineFault> {
        self.is_to_begin()?;
        self.head.ask(alloc, line)
    }

    // A host is there.
    fn add_host(&mut self, alloc: Global, words: &str) -> Result<(), LineFault> {
        self.is_to_begin()?;
        self.head.add_host(alloc, words)
    }

    // Nothing has happened yet.
    fn is_to_begin(&self) -> Result<(), LineFault> {
        if self.has_begun() {
            return Err(LineFault::Malformed);
        }
        Ok(())
    }
}

impl Told for Tale {
    fn is_pasted(&self, line: &str) -> bool {
        line.starts_with('+') || line.starts_with('>') || is_row(line)
    }

    // Takes what the farm has recorded, what an operator has sent, or a row.
    fn paste(&mut self, alloc: Global, line: &str) -> Result<(), LineFault> {
        if let Some(recorded) = line.strip_prefix("+ ") {
            self.record(alloc, recorded)
        } else if let Some(asked) = line.strip_prefix("> ") {
            self.ask(alloc, asked)
        } else {
            self.take_row(alloc, line)
        }
    }

    // Adds a host.
    fn set(&mut self, alloc: Global, name: &str, value: &str) -> Result<(), LineFault> {
        match name {
            "host" => self.add_host(alloc, value),
            _ => Err(LineFault::Malformed),
        }
    }
}

// What the world begins with, of which nothing is left.
fn take_head(alloc: Global, head: &mut Head) -> Result<Head, AllocError> {
    let bare = Head::make(alloc)?;
    Ok(mem::replace(head, bare))
}

// The world that began.
fn put(stage: &mut Option<Stage>, begun: Option<Stage>) {
    drop(mem::replace(stage, begun));
}

// A row, and what it says that comes of it.
fn told_in(line: &str) -> (&str, Option<&str>) {
    match line.split_once("->") {
        None => (line.trim(), None),
        Some((row, told)) => (row.trim(), Some(told.trim())),
    }
}

// The moment that an event tells.
fn moment_of(ask: &Ask<'_>) -> Option<u64> {
    match ask {
        Ask::Deliver { moment, .. } | Ask::Restart { moment, .. } => *moment,
        _ => None,
    }
}
