//! The list of subscriptions.

ghost use Rattle.std.specs.Prelude.{◌≡◌, ◌<◌, ◌^◌, ◌/◌, ◌%◌, map, IfOk, OnOk};
ghost use Rattle.farm_lines.specs.Lists.{sub_row};
ghost use Rattle.farm_types.specs.declared.limits.TheConstants.{MOST_ALLOCS};
ghost use Rattle.cue_query.specs.Pages.{offered, offered_all};

use crate::names::{alloc_name, show_name};
use crate::page::Page;
use farm_core::Farm;
use farm_lines::{ListRow, ShownSub};
use farm_types::{AllocNo, MOST_ALLOCS, ShowNo, SubNo, SubRow};
use std::alloc::{AllocError, Global};

/// Lists the subscriptions on the page, in the order of their numbers.
pub(crate) fn list_subs(alloc: Global, farm: &Farm, page: &mut Page) -> Result<(), AllocError>
    requires { page.old.seen ≡ 0 }
    ensures { OnOk result (page.new ≡ offered_all page.old (map (sub_row farm.now) farm.now.subs)) }
{
    let rows = farm.books().subs().rows(alloc)?;
    let subs = rows.as_slice();
    let count = subs.len();
    let mut place = page.next_row(0, count);
    while place < count {
        list_sub(alloc, farm, &subs[place], page)?;
        place = page.next_row(place + 1, count);
    }
    Ok(())
}

// Lists a subscription.
fn list_sub(alloc: Global, farm: &Farm, sub: &SubRow, page: &mut Page) -> Result<(), AllocError>
    requires { page.old.seen < 2 ^ 63 }
    ensures { OnOk result (page.new ≡ offered page.old (sub_row farm.now sub.now)) }
{
    if !page.takes_next() {
        page.pass();
        return Ok(());
    }
    let row = shown(alloc, farm, sub)?;
    page.push(row)
}

// What is shown of a subscription.
fn shown(alloc: Global, farm: &Farm, sub: &SubRow) -> Result<ListRow, AllocError>
    ensures { IfOk result (λ row. row ≡ sub_row farm.now sub.now) }
{
    Ok(ListRow::Sub(ShownSub {
        alloc: alloc_name(alloc, farm, alloc_of(sub.sub))?,
        booked: farm.books().booked(sub.sub),
        burst: sub.burst,
        show: show_name(alloc, farm, show_of(sub.sub))?,
        size: sub.size,
    }))
}

// The number of a subscription's allocation.
fn alloc_of(sub: SubNo) -> AllocNo
    ensures { result ≡ sub % MOST_ALLOCS }
{
    AllocNo(sub.0 % MOST_ALLOCS as u16)
}

// The number of a subscription's show.
fn show_of(sub: SubNo) -> ShowNo
    ensures { result ≡ sub / MOST_ALLOCS }
{
    ShowNo(sub.0 / MOST_ALLOCS as u16)
}
