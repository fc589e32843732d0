//! The distinct numbers of a set in order, and the place of each.

use crate::limits::MOST_NUMBERS;
use indexmap::IndexSet;
use std::alloc::{AllocError, AllocFailed, Global};
use std::marker::Model;

/// Why a number isn't listed.
#[derive(Clone, Copy, Debug, PartialEq, Eq)]
pub enum ListFault {
    /// There would be too many distinct numbers.
    TooMany,
    /// Memory ran out.
    NoMemory,
}

impl From<AllocError> for ListFault {
    ghost use Rattle.std.specs.Prelude.{◌≡◌};
    ghost use Rattle.frame_range.specs.declared.listing.ListFault.TheVariants.{NoMemory};

    ghost from_gives = { λ _ e. e ≡ NoMemory };

    fn from(_e: AllocError) -> ListFault {
        ListFault::NoMemory
    }
}

impl<T: Drop> From<AllocFailed<T>> for ListFault {
    ghost use Rattle.std.specs.Prelude.{◌≡◌};
    ghost use Rattle.frame_range.specs.declared.listing.ListFault.TheVariants.{NoMemory};

    ghost from_gives = { λ _ e. e ≡ NoMemory };

    fn from(_e: AllocFailed<T>) -> ListFault {
        ListFault::NoMemory
    }
}

/// Distinct numbers in the order in which they were listed, at most 10,000.
#[derive(Drop)]
pub struct Listing {
    numbers: IndexSet<i32>,
}

impl Model for Listing {
    ghost use Rattle.std.specs.Prelude.{◌≤◌, List, ℤ};
    ghost use Rattle.indexmap.specs.IndexSet.{index_set_len};
    ghost use Rattle.frame_range.specs.declared.limits.TheConstants.{MOST_NUMBERS};

    ghost Value = { List ℤ };

    ghost view = { λ listing. listing.numbers.keys };

    ghost invariant = { λ listing. index_set_len listing.numbers ≤ MOST_NUMBERS };
}

impl Listing {
    ghost use Rattle.std.specs.Prelude.{◌≡◌, ◌≤◌, [], ◌∷◌, length};
    ghost use Rattle.frame_range.specs.Places.{place_of};
    ghost use Rattle.frame_range.specs.declared.limits.TheConstants.{MOST_NUMBERS};
    ghost use Rattle.frame_range.specs.Listing.{Lists};

    /// No numbers.
    pub fn new(alloc: Global) -> Listing
        ensures { result ≡ [] }
    {
        Listing {
            numbers: IndexSet::new(alloc),
        }
    }

    /// The numbers in order.
    pub fn numbers(&self) -> &[i32]
        ensures value { result.now ≡ self.now }
        ensures most { length result.now ≤ MOST_NUMBERS }
    {
        self.numbers.as_slice()
    }

    /// Where the number stands, counted from 0.
    pub fn position(&self, number: i32) -> Option<usize>
        ensures { result ≡ place_of number self.now }
    {
        self.numbers.get_index_of(&number)
    }

    /// Lists the number at the end, where it isn't listed yet.
    pub fn list(&mut self, number: i32) -> Result<(), ListFault>
        ensures { Lists self.old (number ∷ []) result self.new }
    {
        if self.numbers.len() < MOST_NUMBERS {
            self.numbers.insert(number)?;
            return Ok(());
        }
        if self.numbers.contains(&number) {
            return Ok(());
        }
        Err(ListFault::TooMany)
    }
}
