//! What the lines of a case tell: steps, each with what it has to answer.

use case_text::{LineFault, Told, numbers_of};
use farm_types::Text;
use std::alloc::Global;

/// A step with what it has to answer; or that all goes on over a new table.
#[derive(Drop)]
pub enum Row {
    Step {
        /// In seconds.
        moment: u64,
        step: Text,
        answer: Text,
    },
    NewTable,
}

/// The rows of a case.
#[derive(Drop)]
pub struct Case {
    pub rows: Vec<Row>,
    /// Which calls of the first table's keeper fail, by their number from 1.
    pub failing: Vec<u64>,
    /// The step whose answer comes next.
    pub asked: Option<Text>,
    moment: u64,
}

impl Case {
    /// No rows, at moment 0.
    pub fn new(alloc: Global) -> Case {
        Case {
            rows: Vec::new(alloc),
            failing: Vec::new(alloc),
            asked: None,
            moment: 0,
        }
    }

    // Takes a step, for which no other one still waits for its answer.
    fn ask(&mut self, alloc: Global, step: &str) -> Result<(), LineFault> {
        if self.asked.is_some() {
            return Err(LineFault::Malformed);
        }
        self.asked = Some(Text::from_str(alloc, step)?);
        Ok(())
    }

    // Takes what the step before has to answer.
    fn answer(&mut self, alloc: Global, answer: &str) -> Result<(), LineFault> {
        let answer = Text::from_str(alloc, answer)?;
        let Some(step) = self.asked.take() else {
            return Err(LineFault::Malformed);
        };
        self.rows.push(Row::Step {
            moment: self.moment,
            step,
            answer,
        })?;
        Ok(())
    }
}

impl Told for Case {
    fn is_pasted(&self, line: &str) -> bool {
        line.starts_with("> ") || line.starts_with("< ")
    }

    // Takes a step or an answer.
    fn paste(&mut self, alloc: Global, line: &str) -> Result<(), LineFault> {
        if let Some(step) = line.strip_prefix("> ") {
            self.ask(alloc, step)
        } else if let Some(answer) = line.strip_prefix("< ") {
            self.answer(alloc, answer)
        } else {
            Err(LineFault::Malformed)
        }
    }

    // Sets the moment of the steps that come, or the calls that fail; or goes on over a new table.
    fn set(&mut self, alloc: Global, name: &str, value: &str) -> Result<(), LineFault> {
        match name {
            "moment" => {
                let Ok(moment) = value.parse::<u64>() else {
                    return Err(LineFault::Malformed);
                };
                self.moment = moment;
            }
            "failing keeper calls" => self.failing = numbers_of(alloc, value)?,
            "table" => {
                if value != "new" {
                    return Err(LineFault::Malformed);
                }
                self.rows.push(Row::NewTable)?;
            }
            _ => return Err(LineFault::Malformed),
        }
        Ok(())
    }
}
