//! The draft, and its rows of hosts and slots.

ghost use Rattle.std.specs.Prelude.{◌≡◌, ◌≤◌, length, nat_eq, slice_get, option_map, IfSome, OnOk, Some};
ghost use Rattle.indexmap.specs.IndexMap.{get};
ghost use Rattle.farm_types.specs.Step.{at_moment};
ghost use Rattle.farm_types.specs.declared.limits.TheConstants.{MOST_HOSTS};
ghost use Rattle.host_book.specs.Life.{life_of};
ghost use Rattle.farm_draft.specs.Drafted.{with_host, with_slot};
ghost use Rattle.farm_draft.specs.Rows.{IsChangeOf, row_of};

use crate::slot_change::SlotChange;
use farm_books::Books;
use farm_types::{HostNo, Slot, SlotRow};
use host_book::HostLife;
use indexmap::IndexMap;
use std::alloc::{AllocError, Global};
use std::marker::Model;

/// The books at a moment (seconds), with changed rows laid over them: lives of hosts, and slots. Contracts see the farm of the books, and the farm that
/// the draft comes to. Nothing of the books changes.
#[derive(Drop)]
pub struct Draft<'a> {
    pub(crate) books: &'a Books,
    pub(crate) moment: u64,
    pub(crate) hosts: IndexMap<u32, HostLife>,
    pub(crate) slots: IndexMap<u32, SlotChange>,
}

impl<'a> Model for Draft<'a> {
    ghost use Rattle.farm_draft.specs.Drafted as types;

    ghost Value = { types.Drafted };

    ghost use Rattle.farm_draft.specs.Inside.{drafted_of, KeepsChanges};

    ghost view = { drafted_of };

    ghost invariant = { KeepsChanges };
}

impl<'a> Draft<'a> {
    /// A draft in which nothing but the moment has changed.
    pub fn new(alloc: Global, books: &'a Books, moment: u64) -> Draft<'a>
        ensures { result ≡ record { base = books.now.farm; moment = moment; farm = at_moment books.now.farm moment } }
    {
        Draft {
            books,
            moment,
            hosts: IndexMap::new(alloc),
            slots: IndexMap::new(alloc),
        }
    }

    /// How many hosts there are.
    pub(crate) fn count_hosts(&self) -> usize
        ensures value { result ≡ length self.now.farm.hosts }
        ensures within { result ≤ MOST_HOSTS }
    {
        self.books.count_hosts()
    }

    /// The life of the host of that number.
    pub fn life(&self, host: HostNo) -> Option<HostLife>
        ensures { result ≡ option_map life_of (slice_get self.now.farm.hosts host) }
    {
        let life = self.books.life(host)?;
        match life_over(&self.hosts, u32::from(host.0)) {
            Some(over) => Some(over),
            None => Some(life),
        }
    }

    /// What stands in a slot, beside the row that the books have of it.
    pub fn slot(&self, slot: Slot) -> Option<SlotChange>
        ensures row { option_map row_of result ≡ slice_get self.now.farm.slots slot }
        ensures is { IfSome result (IsChangeOf self.now.base.slots slot) }
    {
        match change_over(&self.slots, slot.0) {
            Some(over) => Some(over),
            None => unchanged(self.books, slot),
        }
    }

    /// The host has that life.
    pub fn set_life(&mut self, host: HostNo, life: HostLife) -> Result<(), AllocError>
        ensures { OnOk result (self.new ≡ with_host self.old host life) }
    {
        self.hosts.insert(u32::from(host.0), life)?;
        Ok(())
    }

    /// The slot holds that row, where the books have the other one.
    pub fn set_slot(&mut self, slot: Slot, was: &SlotRow, row: SlotRow) -> Result<(), AllocError>
        requires { slice_get self.old.base.slots slot ≡ Some was.now }
        ensures { OnOk result (self.new ≡ with_slot self.old slot row) }
    {
        let was = *was;
        // In its parts, since the check of the insertion asks for their types.
        let SlotRow {
            version,
            frame,
            proc,
        } = row;
        self.slots.insert(
            slot.0,
            SlotChange {
                slot,
                was,
                row: SlotRow {
                    version,
                    frame,
                    proc,
                },
            },
        )?;
        Ok(())
    }
}

// The life that is laid over a host's.
fn life_over(hosts: &IndexMap<u32, HostLife>, host: u32) -> Option<HostLife>
    ensures { result ≡ get nat_eq hosts.now host }
{
    hosts.get(&host).copied()
}

// The change that is laid over a slot.
fn change_over(slots: &IndexMap<u32, SlotChange>, slot: u32) -> Option<SlotChange>
    ensures { result ≡ get nat_eq slots.now slot }
{
    slots.get(&slot).copied()
}

// The slot as the books have it.
fn unchanged(books: &Books, slot: Slot) -> Option<SlotChange>
    ensures row { option_map row_of result ≡ slice_get books.now.farm.slots slot }
    ensures is { IfSome result (IsChangeOf books.now.farm.slots slot) }
{
    let Some(was) = books.slot(slot) else {
        return None;
    };
    let row = was;
    Some(SlotChange { slot, was, row })
}
