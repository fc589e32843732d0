//! Which of two subscriptions comes first.

ghost use Rattle.std.specs.Prelude.{◌≡◌};
ghost use Rattle.farm_types.specs.Dispatch as dispatch;

use std::cmp::Ordering;

/// How two subscriptions compare by what is booked of their sizes, as products of 128 bits: the first has `booked` of
/// `size`. Size 0 comes last.
pub fn by_ratio(booked: u64, size: u64, other_booked: u64, other_size: u64) -> Ordering
    ensures { result ≡ dispatch.by_ratio booked size other_booked other_size }
{
    if size == 0 {
        if other_size == 0 {
            Ordering::Equal
        } else {
            Ordering::Greater
        }
    } else if other_size == 0 {
        Ordering::Less
    } else {
        let product = u128::from(booked) * u128::from(other_size);
        let other_product = u128::from(other_booked) * u128::from(size);
        product.cmp(&other_product)
    }
}
