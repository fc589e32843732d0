//! The subscriptions to a host's allocation, in the order in which their shows' frames are offered.

ghost use Rattle.std.specs.Prelude.{◌≡◌, ◌≤◌, ◌/◌, length, IfOk, OnOk};
ghost use Rattle.std.specs.List.{prefix_len};
ghost use Rattle.std.specs.Ordering.{is_gt};
ghost use Rattle.farm_types.specs.Dispatch as dispatch;
ghost use Rattle.farm_types.specs.declared.limits.TheConstants.{MOST_ALLOCS, MOST_SHOWS};
ghost use Rattle.dispatch_law.specs.ByIndex as index;
ghost use Rattle.dispatch_law.specs.ByIndex.{insert_sub, sorted_subs};
ghost use Rattle.dispatch_plan.specs.Offers.{subs_from};

use farm_core::Farm;
use farm_types::{AllocNo, MOST_ALLOCS, ShowNo, SubNo, SubRow};
use std::alloc::{AllocError, Global};
use std::cmp::Ordering;
use sub_ledger::by_ratio;

/// The subscriptions to an allocation, by what is booked of their sizes, ties by the show's name.
pub(crate) fn subs_in_order(
    alloc: Global,
    farm: &Farm,
    allocation: AllocNo,
) -> Result<Vec<SubRow>, AllocError>
    ensures { IfOk result (λ subs. subs.items ≡ sorted_subs farm.now (subs_from farm.now allocation 0 MOST_SHOWS)) }
{
    farm.kept();
    let mut subs = Vec::new(alloc);
    let mut show = farm.books().count_shows();
    while show > 0 {
        show -= 1;
        let Some(sub) = farm.books().sub_of(ShowNo(show as u16), allocation) else {
            continue;
        };
        put(farm, &mut subs, sub)?;
    }
    Ok(subs)
}

// Puts a subscription before the first that it doesn't come after.
fn put(farm: &Farm, subs: &mut Vec<SubRow>, sub: SubRow) -> Result<(), AllocError>
    ensures { OnOk result (subs.new.items ≡ insert_sub farm.now sub subs.old.items) }
{
    let place = place_of(farm, subs.as_slice(), &sub);
    subs.insert(place, sub)?;
    Ok(())
}

// The place of the first subscription that this one doesn't come after.
fn place_of(farm: &Farm, subs: &[SubRow], sub: &SubRow) -> usize
    ensures value { result ≡ prefix_len (λ y. is_gt (index.sub_cmp farm.now sub.now y)) subs.now }
    ensures within { result ≤ length subs.now }
{
    for (place, other) in subs.iter().enumerate() {
        if sub_cmp(farm, sub, other).is_le() {
            return place;
        }
    }
    subs.len()
}

// How two subscriptions compare.
fn sub_cmp(farm: &Farm, a: &SubRow, b: &SubRow) -> Ordering
    ensures { result ≡ index.sub_cmp farm.now a.now b.now }
{
    let by_name = show_name(farm, show_of(a.sub)).cmp(show_name(farm, show_of(b.sub)));
    by_ratio(
        u64::from(farm.books().booked(a.sub).0),
        u64::from(a.size.0),
        u64::from(farm.books().booked(b.sub).0),
        u64::from(b.size.0),
    )
    .then(by_name)
}

/// The show of a subscription.
pub(crate) fn show_of(sub: SubNo) -> ShowNo
    ensures { result ≡ sub / MOST_ALLOCS }
{
    ShowNo(sub.0 / MOST_ALLOCS as u16)
}

// The name of a show, empty where there is none.
fn show_name(farm: &Farm, show: ShowNo) -> &str
    ensures { result.now ≡ dispatch.show_name farm.now show }
{
    match farm.books().show(show) {
        None => "",
        Some(show) => show.name.as_str(),
    }
}
