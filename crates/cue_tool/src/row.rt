//! The cells of a row, as they are made.

ghost use Rattle.std.specs.Prelude.{◌≡◌, ◌∷◌, [], OnOk, decimal};
ghost use Rattle.cue_tool.specs.Listings.{added, flag_text};

use farm_types::{Cores, Items, Kb, Text};
use std::alloc::{AllocError, Global};
use std::marker::Model;

/// A row as far as it is made, which contracts see as its cells.
#[derive(Drop)]
pub(crate) struct Row {
    alloc: Global,
    cells: Items<Text>,
}

impl Model for Row {
    ghost use Rattle.std.specs.Prelude.{List, ℕ};

    ghost Value = { List (List ℕ) };

    ghost view = { λ row. row.cells };
}

impl Row {
    /// No cells yet.
    pub fn new(alloc: Global) -> Row
        ensures { result ≡ [] }
    {
        Row {
            alloc,
            cells: Items::new(alloc),
        }
    }

    /// The cells, which are moved.
    pub fn into_cells(self) -> Items<Text>
        ensures { result ≡ self }
    {
        let Row {
            alloc: _alloc,
            cells,
        } = self;
        cells
    }

    pub fn text(&mut self, text: &str) -> Result<(), AllocError>
        ensures { OnOk result (self.new ≡ added self.old (text.now ∷ [])) }
    {
        let cell = Text::from_str(self.alloc, text)?;
        self.cells.push(cell)
    }

    pub fn whole(&mut self, number: u64) -> Result<(), AllocError>
        ensures { OnOk result (self.new ≡ added self.old (decimal number ∷ [])) }
    {
        let digits = format!(in self.alloc; "{number}")?;
        self.cells.push(Text::from_string(digits))
    }

    /// An amount of cores, in hundredths of a core.
    pub fn cores(&mut self, cores: Cores) -> Result<(), AllocError>
        ensures { OnOk result (self.new ≡ added self.old (decimal cores ∷ [])) }
    {
        self.whole(u64::from(cores.0))
    }

    /// An amount of memory, in KB.
    pub fn memory(&mut self, memory: Kb) -> Result<(), AllocError>
        ensures { OnOk result (self.new ≡ added self.old (decimal memory ∷ [])) }
    {
        self.whole(memory.0)
    }

    pub fn flag(&mut self, flag: bool) -> Result<(), AllocError>
        ensures { OnOk result (self.new ≡ added self.old (flag_text flag ∷ [])) }
    {
        self.text(if flag { "true" } else { "false" })
    }
}
