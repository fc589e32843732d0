//! Places of rows, in the order of their numbers.

ghost use Rattle.std.specs.Prelude.{◌≡◌, ◌==◌, ◌<◌, ◌≤◌, ◌*◌, ◌++◌, ◌∷◌, [], ℕ, nat_lt, Some, false, find, drop, length, map, slice_get};
ghost use Rattle.std.specs.Prelude.{option_copied, option_map};
ghost use Rattle.std.specs.List.{position_or_len};
ghost use Rattle.std.specs.Vec.{vec_capacity};
ghost use Rattle.farm_types.specs.Rising.{IsRising};
ghost use Rattle.farm_types.specs.declared.limits.TheConstants.{MOST_DEPENDS};
ghost use Rattle.depend_book.specs.Rows.{KeepsPlaces, emptied_by, is_there, last_in, older_of, place_key, satisfied_place, satisfied_places, there_at};

use crate::newest::{last_in, note};
use crate::row_list::RowPlace;
use farm_types::{DependNo, DependRow};
use indexmap::IndexMap;

/// The place of a depend among those whose numbers rise, and how many places there are where it isn't among them.
pub(crate) fn place_of(places: &[RowPlace], depend: DependNo) -> usize
    requires { (high : ℕ) × IsRising place_key 1 places.now high }
    ensures { result ≡ position_or_len (λ x. place_key x == depend) places.now }
{
    place_in(places, depend.0)
}

// The place of a number among those that rise.
fn place_in(places: &[RowPlace], depend: u32) -> usize
    requires { (high : ℕ) × IsRising place_key 1 places.now high }
    ensures { result ≡ position_or_len (λ x. place_key x == depend) places.now }
{
    places
        .binary_search_by_key(&depend, |place| place.row.depend.0)
        .unwrap_or(places.len())
}

/// The place of the first number above `after` among those that rise.
pub(crate) fn place_above(places: &[RowPlace], after: u32) -> usize
    requires { (high : ℕ) × IsRising place_key 1 places.now high }
    ensures { result ≡ position_or_len (λ x. nat_lt after (place_key x)) places.now }
{
    places.partition_point(|place| place.row.depend.0 <= after)
}

/// The row at a place, unless it is gone.
pub(crate) fn row_at(places: &[RowPlace], at: usize) -> Option<&DependRow>
    ensures { option_copied result ≡ there_at (slice_get places.now at) }
{
    match places.get(at) {
        None => None,
        Some(place) => row_there(place),
    }
}

// The row of a place, unless it is gone.
fn row_there(place: &RowPlace) -> Option<&DependRow>
    ensures { option_copied result ≡ there_at (Some place.now) }
{
    if place.gone {
        return None;
    }
    Some(&place.row)
}

/// The number of the first row from a place on that isn't gone.
pub(crate) fn first_there(places: &[RowPlace], from: usize) -> Option<DependNo>
    ensures { result ≡ option_map place_key (find is_there (drop from places.now)) }
{
    for at in from..places.len() {
        if !places[at].gone {
            return Some(places[at].row.depend);
        }
    }
    None
}

/// One place more, and its row is the last of its job. It takes no memory.
pub(crate) fn push_place(
    places: &mut Vec<RowPlace>,
    newest: &mut IndexMap<u32, Option<DependNo>>,
    row: DependRow,
)
    requires places { KeepsPlaces places.old.items newest.old }
    requires room { length places.old.items < 2 * MOST_DEPENDS }
    requires capacity { 2 * MOST_DEPENDS ≤ vec_capacity places.old }
    ensures items { places.new.items ≡ places.old.items ++ record { row = row; older = last_in newest.old row.waiter.job; gone = false } ∷ [] }
    ensures places { KeepsPlaces places.new.items newest.new }
    ensures capacity { vec_capacity places.new ≡ vec_capacity places.old }
{
    let job = waiter_of(&row);
    let depend = depend_of(&row);
    let older = last_in(newest, job);
    places.push_reserved(RowPlace {
        row,
        older,
        gone: false,
    });
    note(newest, job, Some(depend));
}

// The number of the job that waits.
fn waiter_of(row: &DependRow) -> u32
    ensures { result ≡ row.now.waiter.job }
{
    row.waiter.job.0
}

/// The depend's number.
pub(crate) fn depend_of(row: &DependRow) -> DependNo
    ensures { result ≡ row.now.depend }
{
    row.depend
}

/// The row of that number goes. The result is what came before it in its job. It takes no memory.
pub(crate) fn empty(places: &mut Vec<RowPlace>, depend: DependNo) -> Option<DependNo>
    requires { (high : ℕ) × IsRising place_key 1 places.old.items high }
    ensures items { places.new.items ≡ map (emptied_by depend) places.old.items }
    ensures older { result ≡ older_of depend places.old.items }
    ensures capacity { vec_capacity places.new ≡ vec_capacity places.old }
{
    let place = place_of(places.as_slice(), depend);
    if place >= places.len() {
        return None;
    }
    places[place].gone = true;
    older_at(places.as_slice(), place)
}

/// What came before the row at a place in its job.
pub(crate) fn older_at(places: &[RowPlace], at: usize) -> Option<DependNo>
    requires { at < length places.now }
    ensures { Some result ≡ option_map (λ x. x.older) (slice_get places.now at) }
{
    places[at].older
}

/// The depends of those numbers are satisfied.
pub(crate) fn satisfy_places(places: &mut Vec<RowPlace>, depends: &[DependNo])
    requires { (high : ℕ) × IsRising place_key 1 places.old.items high }
    ensures items { places.new.items ≡ satisfied_places depends.now places.old.items }
    ensures capacity { vec_capacity places.new ≡ vec_capacity places.old }
{
    for depend in depends {
        satisfy(places, *depend);
    }
}

// The depend of that number is satisfied.
fn satisfy(places: &mut Vec<RowPlace>, depend: DependNo)
    requires { (high : ℕ) × IsRising place_key 1 places.old.items high }
    ensures items { places.new.items ≡ map (satisfied_place depend) places.old.items }
    ensures capacity { vec_capacity places.new ≡ vec_capacity places.old }
{
    let place = place_of(places.as_slice(), depend);
    if place < places.len() {
        places[place].row.met_all = true;
    }
}
