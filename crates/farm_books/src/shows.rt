//! The shows, in the order of their numbers.

ghost use Rattle.std.specs.Prelude.{◌≡◌, ◌≤◌, ◌<◌, ◌++◌, ◌∷◌, [], length, slice_get, option_copied, IfOk};
ghost use Rattle.std.specs.Vec.{vec_capacity};
ghost use Rattle.farm_types.specs.Farm.{show_from};
ghost use Rattle.farm_types.specs.declared.limits.TheConstants.{MOST_SHOWS};

use farm_types::{MOST_SHOWS, ShowNo, ShowRow, Text};
use std::alloc::{AllocError, Global};
use std::marker::Model;

/// The shows, each at its number, in memory for as many as there may be. Contracts see them as a list.
#[derive(Debug, Drop)]
pub(crate) struct Shows {
    rows: Vec<ShowRow>,
}

impl Model for Shows {
    ghost use Rattle.std.specs.Prelude.{◌≤◌, List, length};
    ghost use Rattle.std.specs.Vec.{vec_capacity};
    ghost use Rattle.farm_types.specs.declared.limits.TheConstants.{MOST_SHOWS};
    ghost use Rattle.farm_types.specs.declared.rows.ShowRow as row;

    ghost Value = { List row.ShowRow };

    ghost view = { λ a. a.rows.items };

    ghost invariant = { λ a. (length a.rows.items ≤ MOST_SHOWS) × (MOST_SHOWS ≤ vec_capacity a.rows) };
}

impl Shows {
    // No shows. It takes the memory of all.
    pub(crate) fn make(alloc: Global) -> Result<Shows, AllocError>
        ensures { IfOk result (λ b. b ≡ []) }
    {
        Ok(Shows {
            rows: Vec::with_capacity(alloc, MOST_SHOWS as usize)?,
        })
    }

    // The book of these rows, with the memory of all. The rows are moved into it.
    pub(crate) fn of_rows(rows: Vec<ShowRow>) -> Result<Shows, AllocError>
        requires { length rows.items ≤ MOST_SHOWS }
        ensures { IfOk result (λ b. b ≡ rows.items) }
    {
        Ok(Shows {
            rows: with_room(rows)?,
        })
    }

    // An equal book, with the memory of all.
    pub(crate) fn copy(&self, alloc: Global) -> Result<Shows, AllocError>
        ensures { IfOk result (λ b. b ≡ self.now) }
    {
        Ok(Shows {
            rows: copy_rows(alloc, self.rows.as_slice())?,
        })
    }

    // The shows, each at its number.
    pub(crate) fn rows(&self) -> &[ShowRow]
        ensures value { result.now ≡ self.now }
        ensures within { length result.now ≤ MOST_SHOWS }
    {
        self.rows.as_slice()
    }

    // How many shows there are.
    pub(crate) fn count(&self) -> usize
        ensures value { result ≡ length self.now }
        ensures within { result ≤ MOST_SHOWS }
    {
        self.rows.len()
    }

    // The show of that number.
    pub(crate) fn row(&self, show: ShowNo) -> Option<&ShowRow>
        ensures { option_copied result ≡ slice_get self.now show }
    {
        row_at(self.rows.as_slice(), show)
    }

    // The number of the first show of that name.
    pub(crate) fn find(&self, name: &str) -> Option<ShowNo>
        ensures { result ≡ show_from 0 name.now self.now }
    {
        show_in(self.rows.as_slice(), name)
    }

    // Adds a show. It takes no memory.
    pub(crate) fn add(&mut self, name: Text)
        requires { length self.old < MOST_SHOWS }
        ensures { self.new ≡ self.old ++ record { name = name } ∷ [] }
    {
        let row = ShowRow { name };
        self.rows.push_reserved(row);
    }
}

// The show at a place of the list.
fn row_at(shows: &[ShowRow], show: ShowNo) -> Option<&ShowRow>
    ensures { option_copied result ≡ slice_get shows.now show }
{
    shows.get(usize::from(show.0))
}

// The place of the first show of that name.
fn show_in(shows: &[ShowRow], name: &str) -> Option<ShowNo>
    requires { length shows.now ≤ MOST_SHOWS }
    ensures { result ≡ show_from 0 name.now shows.now }
{
    for (place, row) in shows.iter().enumerate() {
        if row.name.is(name) {
            return Some(ShowNo(place as u16));
        }
    }
    None
}

// The same rows, with the capacity for all.
fn with_room(rows: Vec<ShowRow>) -> Result<Vec<ShowRow>, AllocError>
    ensures items { IfOk result (λ all. all.items ≡ rows.items) }
    ensures capacity { IfOk result (λ all. MOST_SHOWS ≤ vec_capacity all) }
{
    let mut rows = rows;
    rows.reserve((MOST_SHOWS as usize).saturating_sub(rows.len()))?;
    Ok(rows)
}

// Equal shows, with the capacity for all.
fn copy_rows(alloc: Global, rows: &[ShowRow]) -> Result<Vec<ShowRow>, AllocError>
    ensures items { IfOk result (λ copies. copies.items ≡ rows.now) }
    ensures capacity { IfOk result (λ copies. MOST_SHOWS ≤ vec_capacity copies) }
{
    let mut copies = Vec::with_capacity(alloc, MOST_SHOWS as usize)?;
    for row in rows {
        copies.push(row.copy(alloc)?)?;
    }
    Ok(copies)
}
