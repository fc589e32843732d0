//! The size of a host that boots with another one.

ghost use Rattle.std.specs.Prelude.{◌≡◌, ◌<◌, length, IsOk, MatchResult};
ghost use Rattle.farm_types.specs.declared.entry.Entry.{Entry};
ghost use Rattle.farm_types.specs.Run.{IsLegalStep};
ghost use Rattle.farm_types.specs.Step.{after};
ghost use Rattle.farm_rows.specs.Changes.{NamesExactly};
ghost use Rattle.booking_rule.specs.Kept.{farm_in};
ghost use Rattle.booking_table.specs.Seats.{view, IsSeatOf, IsSameSeat};
ghost use Rattle.recording_turns.specs.Owing.{Resizes};
ghost use Rattle.recording_turns.specs.Resting.{IsAtRest, IsSettled, split_in};
ghost use Rattle.recording_turns.specs.Sizes.{first_resized, free_of, is_resized, resized_by, resized_row, HasGivenSize, HasSize, HoldsRoom, IsStillHeld};

use crate::free::free_word;
use booking_table::{Seat, Table};
use entry_law::{hosts_grow, hosts_stay, sizes_change_by_boots, used_is_running};
use farm_core::Farm;
use farm_rows::{FarmRow, RowChange};
use farm_stands::host_size;
use farm_types::{HostNo, HostRow};
use frame_words::HostWord;

/// The host that a legal entry's changes give another size, if any.
pub fn resized_in(farm: &Farm, changes: &[RowChange]) -> Option<HostNo>
    ensures { (e : Entry) → IsLegalStep farm.now e → NamesExactly farm.now (after farm.now e) changes.now → Resizes farm.now (after farm.now e) result }
{
    farm.kept();
    hosts_grow();
    hosts_stay();
    sizes_change_by_boots();
    first_resized(farm, changes)
}

// the first one
fn first_resized(farm: &Farm, changes: &[RowChange]) -> Option<HostNo>
    ensures { result ≡ first_resized farm.now changes.now }
{
    for change in changes {
        let Some(host) = resized_by(farm, change) else {
            continue;
        };
        return Some(host);
    }
    None
}

fn resized_by(farm: &Farm, change: &RowChange) -> Option<HostNo>
    ensures { result ≡ resized_by farm.now change.now }
{
    match change {
        RowChange::Put(row) => resized_row(farm, row),
        RowChange::Delete { .. } => None,
    }
}

fn resized_row(farm: &Farm, row: &FarmRow) -> Option<HostNo>
    ensures { result ≡ resized_row farm.now row.now }
{
    match row {
        FarmRow::Host { host, row } => {
            if is_resized(farm, *host, row) {
                Some(*host)
            } else {
                None
            }
        }
        FarmRow::Head(_)
        | FarmRow::Show { .. }
        | FarmRow::Alloc { .. }
        | FarmRow::Sub(_)
        | FarmRow::Job(_)
        | FarmRow::Layer(_)
        | FarmRow::Frame(_)
        | FarmRow::Depend(_)
        | FarmRow::Met(_)
        | FarmRow::Limit { .. } => None,
    }
}

// whether the host is there with other amounts than the row's
fn is_resized(farm: &Farm, host: HostNo, row: &HostRow) -> bool
    ensures { result ≡ is_resized farm.now host row.now }
{
    let size = host_size(farm, host);
    size.cores.0 != 0 && !(size.cores.0 == row.cores.0 && size.memory.0 == row.memory.0)
}

/// Takes all that is free of a host's word, where that is the host's size less what its frames use; else it tells what was
/// found to be free, which comes only once a seat was split off.
pub fn take_size(
    table: &Table,
    seat: &mut Seat,
    farm: &Farm,
    host: HostNo,
) -> Result<HostWord, HostWord>
    requires table { IsSeatOf table.now seat.old }
    requires rests { IsAtRest (view seat.old) }
    requires farm { farm_in (view seat.old) ≡ farm.now }
    requires there { host < length farm.now.hosts }
    ensures same { IsSameSeat seat.old seat.new }
    ensures answer { MatchResult result
        (λ room. (room ≡ free_of farm.now host) × HasSize (view seat.old) host room (view seat.new))
        (λ found. IsStillHeld (view seat.old) farm.now host found (view seat.new)) }
    ensures alone { split_in (view seat.old).desk ≡ 0 → IsOk result }
{
    used_is_running();
    farm.kept();
    let HostWord { cores, memory } = free_word(farm, host);
    table.take_whole(seat, host, HostWord { cores, memory })?;
    Ok(HostWord { cores, memory })
}

/// Gives it back.
pub fn give_size(table: &Table, seat: &mut Seat, host: HostNo, room: HostWord)
    requires table { IsSeatOf table.now seat.old }
    requires settled { IsSettled (view seat.old) }
    requires within { host < 4096 }
    requires holds { HoldsRoom (view seat.old) host room }
    ensures same { IsSameSeat seat.old seat.new }
    ensures given { HasGivenSize (view seat.old) (view seat.new) }
{
    table.give_whole(seat, host, room);
}
