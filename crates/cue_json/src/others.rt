//! Keys that an object is not to have.

ghost use Rattle.std.specs.Prelude.{◌≡◌, map, option_map, OnErr, IsErr};
ghost use Rattle.cue_json.specs.View.{members_view};
ghost use Rattle.std.specs.Ordering.{nat_cmp};
ghost use Rattle.std.specs.Cmp.Lexicographic.{slice_cmp};
ghost use Rattle.std.specs.List.Sorted.{IsStrictlySortedBy};
ghost use Rattle.cue_json.specs.Fields.{Gives, first_other, is_expected, keys_in, lesser, others_at};

use crate::fault::FieldFault;
use crate::keys::is_same;
use crate::values::{Map, Value};
use std::alloc::Global;
use std::cmp::Ordering;

/// Whether the key is among the fields.
fn is_among(fields: &[&str], key: &str) -> bool
    ensures { result ≡ is_expected (map (λ f. f.now) fields.now) key.now }
{
    for field in fields {
        if is_same(field, key) {
            return true;
        }
    }
    false
}

/// Nothing where each key of the object is among `fields`, else `Unknown` with the first other key in byte order.
#[tactic(auto, using(crate::proofs::Unexpected::keys_ascend))]
pub fn no_others(alloc: Global, object: &Map, fields: &[&str]) -> Result<(), FieldFault>
    ensures gives { Gives (λ u. u) result (others_at (map (λ f. f.now) fields.now) (members_view object.now.items)) }
    ensures only { OnErr result (IsErr (others_at (map (λ f. f.now) fields.now) (members_view object.now.items))) }
    // So the first other key in the list of members is the first in byte order.
    ensures ordered { IsStrictlySortedBy (slice_cmp nat_cmp) (keys_in (members_view object.now.items)) }
{
    match least_other(object.as_slice(), fields) {
        None => Ok(()),
        Some(key) => Err(FieldFault::unknown(alloc, key)),
    }
}

// The least key that isn't among the fields.
fn least_other<'a>(members: &[(&'a str, Value<'a>)], fields: &[&str]) -> Option<&'a str>
    ensures { option_map (λ k. k.now) result ≡ first_other (map (λ f. f.now) fields.now) (members_view members.now) }
{
    let mut least: Option<&'a str> = None;
    for member in members {
        if !is_among(fields, member.0) {
            least = Some(lesser(member.0, least));
        }
    }
    least
}

// The key, or one before it in byte order.
fn lesser<'a>(key: &'a str, least: Option<&'a str>) -> &'a str
    ensures { result.now ≡ lesser key.now (option_map (λ k. k.now) least.entry) }
{
    let Some(other) = least else {
        return key;
    };
    match key.cmp(other) {
        Ordering::Less => key,
        Ordering::Equal => other,
        Ordering::Greater => other,
    }
}
