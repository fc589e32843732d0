//! Counts that are laid over others, by keys.

ghost use Rattle.std.specs.Prelude.{◌≡◌, ◌-◌, Some, nat_eq, IfOk, OnOk};
ghost use Rattle.indexmap.specs.IndexMap.{get};
ghost use Rattle.depend_graph.specs.Trial.{IsLowered, count_or, key_of};

use indexmap::IndexMap;
use std::alloc::AllocError;

/// One fewer stands under the key from now on: than what is laid there, or than `count` where nothing is. The result is the count before.
pub(crate) fn lower(over: &mut IndexMap<u64, u32>, key: u64, count: u32) -> Result<u32, AllocError>
    ensures before { IfOk result (λ before. before ≡ count_or count (get nat_eq over.old key)) }
    ensures lowered { OnOk result (IsLowered key count (get nat_eq over.old) (get nat_eq over.new)) }
{
    let before = count_over(over, key, count);
    over.insert(key, before.saturating_sub(1))?;
    Ok(before)
}

// What is laid under the key, or the count where nothing is.
fn count_over(over: &IndexMap<u64, u32>, key: u64, count: u32) -> u32
    ensures { result ≡ count_or count (get nat_eq over.now key) }
{
    match over.get(&key) {
        None => count,
        Some(laid) => *laid,
    }
}

/// The key of the group at a place of the depend at a place.
pub(crate) fn key_of(place: u32, group: u32) -> u64
    ensures { result ≡ key_of place group }
{
    4_294_967_296 * u64::from(place) + u64::from(group)
}
