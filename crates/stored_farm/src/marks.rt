//! Searches among depends, groups and marks.

ghost use Rattle.std.specs.Prelude.{◌≡◌, ◌==◌, ◌+◌, ◌*◌, nat_le};
ghost use Rattle.std.specs.List.{list_any, position_or_len};
ghost use Rattle.stored_farm.specs.Ends.{is_mark_of};
ghost use Rattle.stored_farm.specs.Judged.{has_position};
ghost use Rattle.stored_farm.specs.Kept.{met_id};
ghost use Rattle.stored_farm.specs.Marks.{DependsRise, MarksRise, PositionsRise, position_key};

use farm_rows::GROUP_IDS;
use farm_types::{DependRow, Group, MetRow};

/// The place of the depend of that number, and how many depends there are where none has it.
pub(crate) fn place_of(depends: &[DependRow], depend: u32) -> usize
    requires { DependsRise depends.now }
    ensures { result ≡ position_or_len (λ d. d.depend == depend) depends.now }
{
    depends
        .binary_search_by_key(&depend, |row| row.depend.0)
        .unwrap_or(depends.len())
}

/// Whether a group has that position.
pub(crate) fn has_position(groups: &[Group], position: u32) -> bool
    requires { PositionsRise groups.now }
    ensures { result ≡ has_position position groups.now }
{
    place_at(groups, position) < groups.len()
}

// The place of the group at that position, and how many groups there are where none has it.
fn place_at(groups: &[Group], position: u32) -> usize
    requires { PositionsRise groups.now }
    ensures { result ≡ position_or_len (λ g. position_key g == position) groups.now }
{
    groups
        .binary_search_by_key(&position, |group| group.position)
        .unwrap_or(groups.len())
}

/// Whether the depend's group at that position is marked.
pub(crate) fn is_marked(met: &[MetRow], depend: u32, position: u32) -> bool
    requires { MarksRise met.now }
    ensures { result ≡ list_any (is_mark_of depend position) met.now }
{
    if is_past_ids(position) {
        return false;
    }
    place_of_id(met, mark_id(depend, position)) < met.len()
}

// Whether no mark has the position: there are no more ids.
fn is_past_ids(position: u32) -> bool
    ensures { result ≡ nat_le GROUP_IDS position }
{
    GROUP_IDS <= u64::from(position)
}

// The place of the mark of that id, and how many marks there are where none has it.
fn place_of_id(met: &[MetRow], id: u64) -> usize
    requires { MarksRise met.now }
    ensures { result ≡ position_or_len (λ m. met_id m == id) met.now }
{
    met.binary_search_by_key(&id, |mark| id_of(mark))
        .unwrap_or(met.len())
}

/// The mark's id.
pub(crate) fn id_of(mark: &MetRow) -> u64
    ensures { result ≡ met_id mark.now }
{
    mark_id(mark.depend.0, mark.position)
}

// The id of the mark at that position of a depend.
fn mark_id(depend: u32, position: u32) -> u64
    ensures { result ≡ GROUP_IDS * depend + position }
{
    GROUP_IDS * u64::from(depend) + u64::from(position)
}
