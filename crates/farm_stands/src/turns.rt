//! The words that a change of rows is about.

ghost use Rattle.std.specs.Prelude.{◌≡◌, ◌++◌, ◌∷◌, [], IfOk, OnOk};
ghost use Rattle.farm_stands.specs.Turns.{row_turn, slot_turn, turn_for, turn_of, turns_of, with_turn};

use crate::turn::{Turn, row_turn, slot_turn, turn_of};
use farm_core::Farm;
use farm_rows::{FarmRow, RowChange, RowKey};
use farm_types::{Items, Slot};
use std::alloc::{AllocError, Global};

/// The turns of the rows that change, in their order, with what the farm says before the change. A host that keeps its size and its allocation has none.
#[tactic(auto, using(crate::proofs::Turning::with_more))]
pub fn turns_of(
    alloc: Global,
    farm: &Farm,
    changes: &[RowChange],
) -> Result<Items<Turn>, AllocError>
    ensures { IfOk result (λ turns. turns ≡ turns_of farm.now changes.now) }
{
    let mut turns = Vec::new(alloc);
    for change in changes {
        put_for(&mut turns, farm, change, changes.len())?;
    }
    Ok(Items::from_vec(turns))
}

// Puts the turn of a change behind the others, where it has one.
#[inline(always)]
fn put_for(
    turns: &mut Vec<Turn>,
    farm: &Farm,
    change: &RowChange,
    most: usize,
) -> Result<(), AllocError>
    ensures { OnOk result (turns.new.items ≡ turns.old.items ++ with_turn (turn_for farm.now change.now) []) }
{
    match change {
        RowChange::Put(row) => put_row(turns, farm, row, most),
        RowChange::Delete { key } => put_key(turns, farm, *key, most),
    }
}

// .. of a row that is put. That of a frame, of which there may be very many, is made where it stands.
#[inline(always)]
fn put_row(turns: &mut Vec<Turn>, farm: &Farm, row: &FarmRow, most: usize) -> Result<(), AllocError>
    ensures { OnOk result (turns.new.items ≡ turns.old.items ++ with_turn (row_turn farm.now row.now) []) }
{
    match row {
        FarmRow::Frame(row) => put_slot(turns, farm, row.slot, most),
        FarmRow::Head(_)
        | FarmRow::Show { .. }
        | FarmRow::Alloc { .. }
        | FarmRow::Sub(_)
        | FarmRow::Host { .. }
        | FarmRow::Job(_)
        | FarmRow::Layer(_)
        | FarmRow::Depend(_)
        | FarmRow::Met(_)
        | FarmRow::Limit { .. } => put_some(turns, row_turn(farm, row), most),
    }
}

// .. of a row that is deleted.
fn put_key(turns: &mut Vec<Turn>, farm: &Farm, key: RowKey, most: usize) -> Result<(), AllocError>
    ensures { OnOk result (turns.new.items ≡ turns.old.items ++ with_turn (turn_of farm.now key) []) }
{
    match key {
        RowKey::Frame { slot } => put_slot(turns, farm, slot, most),
        RowKey::Head
        | RowKey::Show { .. }
        | RowKey::Alloc { .. }
        | RowKey::Sub { .. }
        | RowKey::Host { .. }
        | RowKey::Job { .. }
        | RowKey::Layer { .. }
        | RowKey::Depend { .. }
        | RowKey::Met { .. }
        | RowKey::Limit { .. } => put_some(turns, turn_of(farm, key), most),
    }
}

// Puts a slot's turn behind the others.
#[inline(always)]
fn put_slot(turns: &mut Vec<Turn>, farm: &Farm, slot: Slot, most: usize) -> Result<(), AllocError>
    ensures { OnOk result (turns.new.items ≡ turns.old.items ++ slot_turn farm.now slot ∷ []) }
{
    put(turns, slot_turn(farm, slot), most)
}

// Puts a turn behind the others, if there is one.
fn put_some(turns: &mut Vec<Turn>, turn: Option<Turn>, most: usize) -> Result<(), AllocError>
    ensures { OnOk result (turns.new.items ≡ turns.old.items ++ with_turn turn []) }
{
    match turn {
        None => Ok(()),
        Some(turn) => put(turns, turn, most),
    }
}

// Puts a turn behind the others. The first one takes the room for as many as there may be.
#[inline(always)]
fn put(turns: &mut Vec<Turn>, turn: Turn, most: usize) -> Result<(), AllocError>
    ensures { OnOk result (turns.new.items ≡ turns.old.items ++ turn ∷ []) }
{
    if turns.len() >= turns.capacity() {
        turns.reserve(most.max(1))?;
    }
    turns.push_reserved(turn);
    Ok(())
}
