//! Places whose rows are gone are closed up.

ghost use Rattle.std.specs.Prelude.{◌≡◌, ◌<◌, ◌≤◌, ◌+◌, ◌*◌, ℕ, count_by, filter, length};
ghost use Rattle.std.specs.Vec.{vec_capacity};
ghost use Rattle.indexmap.specs.IndexMap.{index_map_len, spare};
ghost use Rattle.farm_types.specs.declared.limits.TheConstants.{MOST_DEPENDS};
ghost use Rattle.farm_types.specs.Rising.{IsRising};
ghost use Rattle.depend_book.specs.Rows.{KeepsPlaces, is_there, last_from, last_in, none_seen, place_key, rows_there, with_last};

use crate::newest::note;
use crate::row_list::RowPlace;
use farm_types::{DependNo, MOST_DEPENDS};
use indexmap::IndexMap;

/// Where no place is left, those whose rows are gone are closed up. Among twice as many places as there may be rows, half of them are gone then.
pub(crate) fn make_room(places: &mut Vec<RowPlace>, newest: &mut IndexMap<u32, Option<DependNo>>)
    requires places { KeepsPlaces places.old.items newest.old }
    requires few { count_by is_there places.old.items < MOST_DEPENDS }
    ensures rows { rows_there places.new.items ≡ rows_there places.old.items }
    ensures count { count_by is_there places.new.items ≡ count_by is_there places.old.items }
    ensures rise { (high : ℕ) → IsRising place_key 1 places.old.items high → IsRising place_key 1 places.new.items high }
    ensures places { KeepsPlaces places.new.items newest.new }
    ensures room { length places.new.items < 2 * MOST_DEPENDS }
    ensures capacity { vec_capacity places.new ≡ vec_capacity places.old }
{
    if places.len() < 2 * MOST_DEPENDS as usize {
        return;
    }
    leave_out(places);
    newest.clear();
    note_all(places.as_slice(), newest);
}

// The places whose rows are gone go.
fn leave_out(places: &mut Vec<RowPlace>)
    ensures items { places.new.items ≡ filter is_there places.old.items }
    ensures capacity { vec_capacity places.new ≡ vec_capacity places.old }
{
    places.retain(|place| !place.gone);
}

// The last row of each job, into a map of none.
fn note_all(places: &[RowPlace], newest: &mut IndexMap<u32, Option<DependNo>>)
    requires none { (job : ℕ) → last_in newest.old job ≡ none_seen job }
    requires empty { index_map_len newest.old ≡ 0 }
    requires room { 2 * MOST_DEPENDS ≤ index_map_len newest.old + spare newest.old }
    requires few { length places.now < 2 * MOST_DEPENDS }
    ensures last { (job : ℕ) → last_in newest.new job ≡ last_from none_seen places.now job }
    ensures fewer { index_map_len newest.new ≤ length places.now }
    ensures room { 2 * MOST_DEPENDS ≤ index_map_len newest.new + spare newest.new }
{
    for place in places {
        note_place(newest, place);
    }
}

// The row of a place is the last of its job, if it isn't gone.
fn note_place(newest: &mut IndexMap<u32, Option<DependNo>>, place: &RowPlace)
    requires { 0 < spare newest.old }
    ensures last { (job : ℕ) → last_in newest.new job ≡ with_last place.now (last_in newest.old) job }
    ensures count { index_map_len newest.new ≤ index_map_len newest.old + 1 }
    ensures capacity { index_map_len newest.old + spare newest.old ≤ index_map_len newest.new + spare newest.new }
{
    if !place.gone {
        note(newest, place.row.waiter.job.0, Some(place.row.depend));
    }
}
