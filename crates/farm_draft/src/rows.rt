//! The rows that a draft has changed.

ghost use Rattle.std.specs.Prelude.{◌≡◌, ◌↔◌, [], List, map, nat_eq, slice_get, All, IfOk, IsTrue};
ghost use Rattle.std.specs.List.{IsDistinct};
ghost use Rattle.indexmap.specs.IndexMap.{get};
ghost use Rattle.host_book.specs.Life.{with_life};
ghost use Rattle.farm_draft.specs.Laid.{laid};
ghost use Rattle.farm_types.specs.declared.slot_row.SlotRow.{SlotRow};
ghost use Rattle.farm_types.specs.Step.{at_moment};
ghost use Rattle.farm_draft.specs.Ends.{OnlyEnds};
ghost use Rattle.farm_draft.specs.Rows.{AreChangesOf, AreReady, ArePicked, HasSameLife, IsChanged, IsOtherLife, installed, put_lives, slot_of};

use crate::draft::Draft;
use crate::slot_change::SlotChange;
use farm_books::Books;
use farm_types::{HostNo, Slot};
use host_book::HostLife;
use indexmap::IndexMap;
use std::alloc::{AllocError, Global};

/// Rows that differ from those of the books: lives of hosts, each with its number, and changes of slots.
#[derive(Debug, Drop)]
pub struct Rows {
    pub hosts: Vec<(u32, HostLife)>,
    pub slots: Vec<SlotChange>,
}

impl Rows {
    /// No rows.
    pub fn none(alloc: Global) -> Rows
        ensures hosts { result.hosts.items ≡ [] }
        ensures slots { result.slots.items ≡ [] }
        ensures numbers { IsDistinct nat_eq (map slot_of result.slots.items) }
    {
        Rows {
            hosts: Vec::new(alloc),
            slots: Vec::new(alloc),
        }
    }
}

impl<'a> Draft<'a> {
    /// The rows of the draft that differ from those of its books.
    pub fn into_rows(self, alloc: Global) -> Result<Rows, AllocError>
        requires { OnlyEnds self.base.slots self.farm.slots }
        ensures farm { IfOk result (λ rows. installed (at_moment self.entry.base self.entry.moment) rows ≡ self.entry.farm) }
        ensures ready { IfOk result (λ rows. AreReady self.entry.base rows) }
        ensures differ { IfOk result (λ rows. All IsChanged rows.slots.items
            × All (IsOtherLife self.entry.base.hosts) rows.hosts.items) }
    {
        let books = self.books;
        Ok(Rows {
            hosts: changed_lives(alloc, books, self.hosts)?,
            slots: changed_slots(alloc, self.slots)?,
        })
    }
}

// The lives that differ from those of the books' hosts.
fn changed_lives(
    alloc: Global,
    books: &Books,
    over: IndexMap<u32, HostLife>,
) -> Result<Vec<(u32, HostLife)>, AllocError>
    ensures all { IfOk result (λ entries. put_lives books.now.farm.hosts entries.items ≡ laid with_life (get nat_eq over) books.now.farm.hosts) }
    ensures differ { IfOk result (λ entries. All (IsOtherLife books.now.farm.hosts) entries.items) }
{
    let mut entries = Vec::new(alloc);
    for (host, life) in over {
        if is_same_life(books, host, &life) {
            continue;
        }
        entries.push((host, life))?;
    }
    Ok(entries)
}

// The changes that give their slots other rows.
fn changed_slots(
    alloc: Global,
    over: IndexMap<u32, SlotChange>,
) -> Result<Vec<SlotChange>, AllocError>
    ensures { IfOk result (λ changes. (slots : List SlotRow) → AreChangesOf slots (get nat_eq over) → ArePicked slots (get nat_eq over) changes.items) }
{
    let mut changes = Vec::new(alloc);
    for (slot, change) in over {
        if change.changes_nothing() {
            continue;
        }
        // In its parts, since the check of the push asks for their types.
        let SlotChange { slot: _, was, row } = change;
        changes.push(SlotChange {
            slot: Slot(slot),
            was,
            row,
        })?;
    }
    Ok(changes)
}

// Whether the host isn't there, or has that life.
fn is_same_life(books: &Books, host: u32, life: &HostLife) -> bool
    ensures { IsTrue result ↔ HasSameLife (slice_get books.now.farm.hosts host) life.now }
{
    if host as usize >= books.count_hosts() {
        return true;
    }
    match books.life(HostNo(host as u16)) {
        None => true,
        Some(old) => old == *life,
    }
}
