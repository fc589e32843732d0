//! The set.

ghost use Rattle.std.specs.Prelude.{◌≡◌, length, replicate, slice_set, true, IfOk};
ghost use Rattle.place_set.specs.Places.{first_from};

use crate::blocks::{BLOCK, change_count, first_marked, full_counts};
use std::alloc::{AllocError, Global};
use std::marker::Model;

/// A set of the places 0 to a length less one. Contracts see it as a list of marks, one for each place.
#[derive(Debug, Drop)]
pub struct PlaceSet {
    marks: Vec<bool>,
    counts: Vec<u32>,
}

impl Model for PlaceSet {
    ghost use Rattle.std.specs.Prelude.{Bool, List};
    ghost use Rattle.place_set.specs.Inside.{Counted};

    ghost Value = { List Bool };

    ghost view = { λ set. set.marks.items };

    ghost invariant = { λ set. Counted set.marks.items set.counts.items };
}

impl PlaceSet {
    /// All places below the length.
    pub fn full(alloc: Global, length: usize) -> Result<PlaceSet, AllocError>
        ensures { IfOk result (λ set. set ≡ replicate length true) }
    {
        Ok(PlaceSet {
            marks: vec![in alloc; true; length]?,
            counts: full_counts(alloc, length)?,
        })
    }

    /// How many places there are, in the set or not.
    pub fn len(&self) -> usize
        ensures { result ≡ length self.now }
    {
        self.marks.len()
    }

    /// Puts the place into the set, or takes it out. A place past the length is left alone. It takes no memory.
    pub fn put(&mut self, place: usize, there: bool)
        ensures { self.new ≡ slice_set self.old place there }
    {
        if place < self.marks.len() && self.marks[place] != there {
            self.marks[place] = there;
            change_count(&mut self.counts, place / BLOCK, there);
        }
    }

    /// The first place of the set at this one or after it.
    pub fn first_from(&self, from: usize) -> Option<usize>
        ensures { result ≡ first_from self.now from }
    {
        first_marked(self.marks.as_slice(), self.counts.as_slice(), from)
    }

    /// An equal set.
    pub fn copy(&self, alloc: Global) -> Result<PlaceSet, AllocError>
        ensures { IfOk result (λ copy. copy ≡ self.now) }
    {
        Ok(PlaceSet {
            marks: Vec::from_slice(alloc, self.marks.as_slice())?,
            counts: Vec::from_slice(alloc, self.counts.as_slice())?,
        })
    }
}
