//! The book of given rows, and its rows again.

ghost use Rattle.std.specs.Prelude.{◌≡◌, ◌≤◌, ◌+◌, length, map, string_bytes, IfOk};
ghost use Rattle.std.specs.Vec.{vec_capacity};
ghost use Rattle.indexmap.specs.IndexSet.{spare};
ghost use Rattle.farm_types.specs.Kept.{AllDiffer, host_label};
ghost use Rattle.farm_types.specs.declared.limits.TheConstants.{MOST_HOSTS};
ghost use Rattle.host_book.specs.Inside.{name_of, watched_of};

use crate::apply::add_name;
use crate::bound::least;
use crate::hosts::Hosts;
use crate::life::{life_of, watched_in};
use farm_types::{HostRow, MOST_HOSTS};
use indexmap::IndexSet;
use std::alloc::{AllocError, Global};

impl Hosts {
    /// The book of these rows, with the memory of all hosts. The rows are moved into it, and their names copied for the index.
    pub fn of_rows(alloc: Global, rows: Vec<HostRow>) -> Result<Hosts, AllocError>
        requires count { length rows.items ≤ MOST_HOSTS }
        requires differ { AllDiffer host_label rows.items }
        ensures { IfOk result (λ b. b ≡ rows.items) }
    {
        let names = names_of(alloc, rows.as_slice())?;
        let watched = watched_of(alloc, rows.as_slice())?;
        let oldest = least(watched.as_slice());
        let rows = with_room(rows)?;
        Ok(Hosts {
            rows,
            names,
            watched,
            oldest,
        })
    }

    /// The hosts, each at its number.
    pub fn rows(&self) -> &[HostRow]
        ensures value { result.now ≡ self.now }
        ensures within { length result.now ≤ MOST_HOSTS }
    {
        self.rows.as_slice()
    }
}

// The names in the order of the rows, with the capacity for all.
fn names_of(alloc: Global, rows: &[HostRow]) -> Result<IndexSet<String>, AllocError>
    requires count { length rows.now ≤ MOST_HOSTS }
    requires differ { AllDiffer host_label rows.now }
    ensures keys { IfOk result (λ names. map string_bytes names.keys ≡ map name_of rows.now) }
    ensures capacity { IfOk result (λ names. MOST_HOSTS ≤ length names.keys + spare names) }
{
    let mut names = IndexSet::with_capacity(alloc, MOST_HOSTS as usize)?;
    for row in rows {
        let name = String::from_str(alloc, row.name.as_str())?;
        add_name(&mut names, name);
    }
    Ok(names)
}

// What is watched of each host, with the capacity for all.
fn watched_of(alloc: Global, rows: &[HostRow]) -> Result<Vec<u64>, AllocError>
    ensures items { IfOk result (λ watched. watched.items ≡ map watched_of rows.now) }
    ensures capacity { IfOk result (λ watched. MOST_HOSTS ≤ vec_capacity watched) }
{
    let mut watched = Vec::with_capacity(alloc, MOST_HOSTS as usize)?;
    for row in rows {
        watched.push(watched_in(&life_of(row)))?;
    }
    Ok(watched)
}

// The same rows, with the capacity for all.
fn with_room(rows: Vec<HostRow>) -> Result<Vec<HostRow>, AllocError>
    ensures items { IfOk result (λ all. all.items ≡ rows.items) }
    ensures capacity { IfOk result (λ all. MOST_HOSTS ≤ vec_capacity all) }
{
    let mut rows = rows;
    rows.reserve((MOST_HOSTS as usize).saturating_sub(rows.len()))?;
    Ok(rows)
}
