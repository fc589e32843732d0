//! The list of limits.

ghost use Rattle.std.specs.Prelude.{◌≡◌, ◌<◌, ◌^◌, IfOk, OnOk, Some, length, option_map, slice_get};
ghost use Rattle.farm_types.specs.Sums.{running_in};
ghost use Rattle.farm_lines.specs.Lists.{limit_row, limit_rows};
ghost use Rattle.cue_query.specs.Pages.{offered_all};
ghost use Rattle.cue_query.specs.Queries.{rows_if};

use crate::page::Page;
use farm_core::Farm;
use farm_lines::{ListRow, ShownLimit};
use farm_types::{LimitNo, LimitRow};
use std::alloc::{AllocError, Global};

/// Lists the limits on the page, in the order of their numbers.
pub(crate) fn list_limits(alloc: Global, farm: &Farm, page: &mut Page) -> Result<(), AllocError>
    requires { page.old.seen ≡ 0 }
    ensures { OnOk result (page.new ≡ offered_all page.old (limit_rows farm.now 0 farm.now.limits)) }
{
    let count = farm.books().limits().count();
    let mut place = page.next_row(0, count);
    while place < count {
        list_limit(alloc, farm, LimitNo(place as u8), page)?;
        place = page.next_row(place + 1, count);
    }
    Ok(())
}

// Lists the limit of that number, if there is one.
fn list_limit(
    alloc: Global,
    farm: &Farm,
    number: LimitNo,
    page: &mut Page,
) -> Result<(), AllocError>
    requires { page.old.seen < 2 ^ 63 }
    ensures { OnOk result (page.new ≡ offered_all page.old (rows_if (option_map (limit_row farm.now number) (slice_get farm.now.limits number)))) }
{
    let Some(limit) = farm.books().limits().row(number) else {
        return Ok(());
    };
    if !page.takes_next() {
        page.pass();
        return Ok(());
    }
    let row = shown(alloc, farm, number, limit)?;
    page.push(row)
}

// What is shown of a limit.
fn shown(
    alloc: Global,
    farm: &Farm,
    number: LimitNo,
    limit: &LimitRow,
) -> Result<ListRow, AllocError>
    requires { slice_get farm.now.limits number ≡ Some limit.now }
    ensures { IfOk result (λ row. row ≡ limit_row farm.now number limit.now) }
{
    let running = running_in(farm, number);
    Ok(ListRow::Limit(ShownLimit {
        most: limit.most,
        name: limit.name.copy(alloc)?,
        running,
    }))
}

// How many frames run in a limit of the farm.
fn running_in(farm: &Farm, number: LimitNo) -> u32
    requires { number < length farm.now.limits }
    ensures { result ≡ running_in farm.now number }
{
    farm.books().running(number)
}
