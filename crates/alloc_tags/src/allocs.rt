//! The allocations, in the order of their numbers.

ghost use Rattle.std.specs.Prelude.{◌≡◌, ◌++◌, ◌∷◌, [], length, IfOk, Ok};
ghost use Rattle.farm_types.specs.Farm.{alloc_name};
ghost use Rattle.alloc_tags.specs.Book.{check_of};

use crate::read::is_named_among;
use crate::spare::Spare;
use farm_types::{AllocNo, AllocRow, MOST_ALLOCS, Text};
use std::alloc::{AllocError, Global};
use std::fmt;
use std::marker::Model;

/// Why an allocation can't be added.
#[derive(Clone, Copy, Debug, PartialEq, Eq)]
pub enum AllocRefusal {
    /// One of that name is there.
    Exists,
    /// So many are there as there may be.
    Full,
}

impl fmt::Display for AllocRefusal {
    fn fmt<W: fmt::Write>(&self, f: &mut fmt::Formatter<W>) -> fmt::Result {
        match self {
            AllocRefusal::Exists => write!(f, "an allocation of that name is there"),
            AllocRefusal::Full => write!(f, "{MOST_ALLOCS} allocations are there"),
        }
    }
}

/// The allocations, each at its number, 16 at most. Contracts see them as a list.
#[derive(Debug, Drop)]
pub struct Allocs {
    pub(crate) rows: Vec<AllocRow>,
}

impl Model for Allocs {
    ghost use Rattle.std.specs.Prelude.{List};
    ghost use Rattle.farm_types.specs.declared.rows.AllocRow as row;

    ghost Value = { List row.AllocRow };

    ghost use Rattle.alloc_tags.specs.Inside.{KeepsBook};

    ghost view = { λ book. book.rows.items };

    ghost invariant = { KeepsBook };
}

impl Allocs {
    /// No allocations. It takes the memory of all.
    pub fn make(alloc: Global) -> Result<Allocs, AllocError>
        ensures { IfOk result (λ b. b ≡ []) }
    {
        Ok(Allocs {
            rows: Vec::with_capacity(alloc, MOST_ALLOCS as usize)?,
        })
    }

    /// The number that an allocation of the facility and the tag would get. `Exists` comes exactly where one of that name
    /// is there, and `Full` exactly where it is new and 16 are there.
    #[tactic(auto, using(crate::proofs::Found::found_from))]
    pub fn check(&self, facility: &str, tag: &str) -> Result<AllocNo, AllocRefusal>
        ensures { result ≡ check_of self.now (alloc_name facility.now tag.now) }
    {
        if is_named_among(self.rows.as_slice(), facility, tag) {
            return Err(AllocRefusal::Exists);
        }
        if self.rows.len() >= MOST_ALLOCS as usize {
            return Err(AllocRefusal::Full);
        }
        Ok(AllocNo(self.rows.len() as u16))
    }

    /// Takes the memory that the allocation needs. The book is as before.
    pub fn reserve(&mut self, alloc: Global, facility: &str, tag: &str) -> Result<Spare, AllocError>
        ensures book { self.new ≡ self.old }
        ensures reserved { IfOk result (λ reserved. reserved ≡ record { facility = facility.now; tag = tag.now }) }
    {
        Ok(Spare {
            row: AllocRow {
                facility: Text::from_str(alloc, facility)?,
                tag: Text::from_str(alloc, tag)?,
            },
        })
    }

    /// Adds an allocation that may be added, in the memory that was reserved for it, and gives its number. It takes no memory.
    pub fn add(&mut self, reserved: Spare) -> AllocNo
        requires { check_of self.old (alloc_name reserved.facility reserved.tag) ≡ Ok (length self.old) }
        ensures book { self.new ≡ self.old ++ reserved ∷ [] }
        ensures number { result ≡ length self.old }
    {
        let Spare { row } = reserved;
        let number = AllocNo(self.rows.len() as u16);
        self.rows.push_reserved(row);
        number
    }
}
