//! What a change of a row is about: the words that the row has.

ghost use Rattle.std.specs.Prelude.{◌≡◌, ◌↔◌, IsTrue};
ghost use Rattle.booking_rule.specs.Link.{stand_at};
ghost use Rattle.booking_rule.specs.Rule.{word_of};
ghost use Rattle.farm_stands.specs.Turns.{Says, amounts_in, host_turn, row_turn, slot_turn, turn_of};

use crate::bounds::{HostSize, burst, host_size, most};
use crate::words::{SlotWords, slot_words};
use farm_core::Farm;
use farm_rows::{FarmRow, RowKey};
use farm_types::{Cores, HostNo, HostRow, LimitNo, Slot, SubNo};
use frame_words::{AmountWord, FrameWord};

/// The words of a row that changes, by the number of its slot, host, subscription or limit, and what the farm says of them before the change: a slot's two
/// words, a host's size and allocation, a burst (hundredths of a core), how many frames a limit lets run.
#[derive(Clone, Copy, Debug)]
pub enum Turn {
    Slot {
        slot: Slot,
        frame: FrameWord,
        amount: AmountWord,
    },
    Host {
        host: HostNo,
        size: HostSize,
    },
    Sub {
        sub: SubNo,
        burst: Cores,
    },
    Limit {
        limit: LimitNo,
        most: u32,
    },
}

impl Turn {
    /// Whether the farm says the same of the words.
    pub fn is_said_by(&self, farm: &Farm) -> bool
        ensures { IsTrue result ↔ Says farm.now self.now }
    {
        match self {
            Turn::Slot {
                slot,
                frame,
                amount,
            } => are_said(farm, *slot, frame, amount),
            Turn::Host { host, size } => *size == host_size(farm, *host),
            Turn::Sub { sub, burst: said } => *said == burst(farm, *sub),
            Turn::Limit { limit, most: said } => *said == most(farm, *limit),
        }
    }
}

// Whether the farm says these words of the slot.
fn are_said(farm: &Farm, slot: Slot, frame: &FrameWord, amount: &AmountWord) -> bool
    ensures { IsTrue result ↔ ((frame.now ≡ word_of (stand_at farm.now slot)) × (amount.now ≡ amounts_in (stand_at farm.now slot))) }
{
    slot_words(farm, slot).are(frame, amount)
}

/// What the farm says of the words of a row that is put; none where the row has no words, or is of a host that keeps its size and its allocation.
#[inline(always)]
pub(crate) fn row_turn(farm: &Farm, row: &FarmRow) -> Option<Turn>
    ensures { result ≡ row_turn farm.now row.now }
{
    match row {
        FarmRow::Host { host, row } => host_turn(farm, *host, row),
        FarmRow::Head(_)
        | FarmRow::Show { .. }
        | FarmRow::Alloc { .. }
        | FarmRow::Sub(_)
        | FarmRow::Job(_)
        | FarmRow::Layer(_)
        | FarmRow::Frame(_)
        | FarmRow::Depend(_)
        | FarmRow::Met(_)
        | FarmRow::Limit { .. } => turn_of(farm, row.key()),
    }
}

// The turn of a host that gets that row, unless it keeps its size and its allocation.
#[inline(always)]
fn host_turn(farm: &Farm, host: HostNo, row: &HostRow) -> Option<Turn>
    ensures { result ≡ host_turn farm.now host row.now }
{
    let size = host_size(farm, host);
    if size.cores.0 == row.cores.0
        && (size.memory.0 == row.memory.0 && size.alloc.0 == row.alloc.0)
    {
        return None;
    }
    Some(Turn::Host { host, size })
}

/// What the farm says of the words of the row of that key. Only rows of slots, hosts, subscriptions and limits have words.
#[inline(always)]
pub fn turn_of(farm: &Farm, key: RowKey) -> Option<Turn>
    ensures { result ≡ turn_of farm.now key }
{
    match key {
        RowKey::Frame { slot } => Some(slot_turn(farm, slot)),
        RowKey::Host { host } => Some(Turn::Host {
            host,
            size: host_size(farm, host),
        }),
        RowKey::Sub { sub } => Some(Turn::Sub {
            sub,
            burst: burst(farm, sub),
        }),
        RowKey::Limit { limit } => Some(Turn::Limit {
            limit,
            most: most(farm, limit),
        }),
        RowKey::Head
        | RowKey::Show { .. }
        | RowKey::Alloc { .. }
        | RowKey::Job { .. }
        | RowKey::Layer { .. }
        | RowKey::Depend { .. }
        | RowKey::Met { .. } => None,
    }
}

/// What the farm says of the words of a slot.
#[inline(always)]
pub(crate) fn slot_turn(farm: &Farm, slot: Slot) -> Turn
    ensures { result ≡ slot_turn farm.now slot }
{
    let SlotWords { frame, amount } = slot_words(farm, slot);
    Turn::Slot {
        slot,
        frame,
        amount,
    }
}
