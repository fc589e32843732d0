//! Names that differ, among which one is found without a walk.

ghost use Rattle.std.specs.Prelude.{◌≡◌, ◌++◌, ◌∷◌, [], false, bytes_eq, OnOk, OnErr};
ghost use Rattle.std.specs.List.{list_any};

use farm_types::Text;
use indexmap::IndexSet;
use std::alloc::{AllocError, Global};
use std::marker::Model;

/// Names that differ, in the order in which they were added.
#[derive(Drop)]
pub struct Names {
    set: IndexSet<String>,
}

impl Model for Names {
    ghost use Rattle.std.specs.Prelude.{ℕ, List, map, string_bytes};

    ghost Value = { List (List ℕ) };

    ghost view = { λ names. map string_bytes names.set.keys };
}

impl Names {
    /// No names.
    pub fn new(alloc: Global) -> Names
        ensures { result ≡ [] }
    {
        Names {
            set: IndexSet::new(alloc),
        }
    }

    /// Whether the name is there.
    pub fn has(&self, name: &Text) -> bool
        ensures { result ≡ list_any (λ other. bytes_eq other name.now) self.now }
    {
        self.set.contains(name.as_str())
    }

    /// Adds a name that isn't there, at the end. At an `Err` nothing has changed.
    pub fn add(&mut self, alloc: Global, name: &Text) -> Result<(), AllocError>
        requires new { list_any (λ other. bytes_eq other name.now) self.old ≡ false }
        ensures ok { OnOk result (self.new ≡ self.old ++ name.now ∷ []) }
        ensures err { OnErr result (self.new ≡ self.old) }
    {
        let copy = String::from_str(alloc, name.as_str())?;
        self.set.insert(copy)?;
        Ok(())
    }
}
