//! What is read of the book.

ghost use Rattle.std.specs.Prelude.{◌≡◌, ◌≤◌, length, slice_get, option_copied, bytes_eq};
ghost use Rattle.std.specs.List.{list_any};
ghost use Rattle.farm_types.specs.Farm.{alloc_from, alloc_name, is_facility};
ghost use Rattle.farm_types.specs.declared.limits.TheConstants.{MOST_ALLOCS};

use crate::allocs::Allocs;
use crate::names::{is_joined, is_same_name};
use farm_types::{AllocNo, AllocRow};

impl Allocs {
    /// How many allocations there are.
    pub fn count(&self) -> usize
        ensures value { result ≡ length self.now }
        ensures within { result ≤ MOST_ALLOCS }
    {
        self.rows.len()
    }

    /// The number of the allocation of that name, `facility.tag`.
    pub fn find(&self, name: &str) -> Option<AllocNo>
        ensures { result ≡ alloc_from 0 name.now self.now }
    {
        number_in(self.rows.as_slice(), name)
    }

    /// The allocation of that number.
    pub fn row(&self, alloc: AllocNo) -> Option<&AllocRow>
        ensures { option_copied result ≡ slice_get self.now alloc }
    {
        row_in(self.rows.as_slice(), usize::from(alloc.0))
    }

    /// Whether an allocation has the facility.
    pub fn has_facility(&self, facility: &str) -> bool
        ensures { result ≡ is_facility facility.now self.now }
    {
        is_facility_in(self.rows.as_slice(), facility)
    }
}

// Whether an allocation has the name of that facility and tag.
pub(crate) fn is_named_among(rows: &[AllocRow], facility: &str, tag: &str) -> bool
    ensures { result ≡ list_any (λ row. bytes_eq (alloc_name row.facility row.tag) (alloc_name facility.now tag.now)) rows.now }
{
    rows.iter().any(|row| has_name_of(row, facility, tag))
}

// Whether the allocation has the name of that facility and tag.
fn has_name_of(row: &AllocRow, facility: &str, tag: &str) -> bool
    ensures { result ≡ bytes_eq (alloc_name row.now.facility row.now.tag) (alloc_name facility.now tag.now) }
{
    is_same_name(
        row.facility.as_str().as_bytes(),
        row.tag.as_str().as_bytes(),
        facility.as_bytes(),
        tag.as_bytes(),
    )
}

// The number of the first allocation of that name.
fn number_in(rows: &[AllocRow], name: &str) -> Option<AllocNo>
    requires { length rows.now ≤ MOST_ALLOCS }
    ensures { result ≡ alloc_from 0 name.now rows.now }
{
    for (place, row) in rows.iter().enumerate() {
        if is_named(row, name) {
            return Some(AllocNo(place as u16));
        }
    }
    None
}

// Whether that is the allocation's name.
fn is_named(row: &AllocRow, name: &str) -> bool
    ensures { result ≡ bytes_eq (alloc_name row.now.facility row.now.tag) name.now }
{
    is_joined(
        row.facility.as_str().as_bytes(),
        row.tag.as_str().as_bytes(),
        name.as_bytes(),
    )
}

// The allocation at a place of the list.
fn row_in(rows: &[AllocRow], place: usize) -> Option<&AllocRow>
    ensures { option_copied result ≡ slice_get rows.now place }
{
    rows.get(place)
}

// Whether an allocation of the list has the facility.
fn is_facility_in(rows: &[AllocRow], facility: &str) -> bool
    ensures { result ≡ is_facility facility.now rows.now }
{
    rows.iter().any(|row| row.facility.is(facility))
}
