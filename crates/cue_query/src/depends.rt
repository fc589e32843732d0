//! The list of the depends in which a job waits.

ghost use Rattle.std.specs.Prelude.{◌≡◌, ◌<◌, ◌^◌, OnOk, option_map};
ghost use Rattle.farm_types.specs.DependActs.{depend_at};
ghost use Rattle.farm_lines.specs.Lists.{depend_row, depend_rows};
ghost use Rattle.cue_query.specs.Pages.{offered_all};
ghost use Rattle.cue_query.specs.Queries.{rows_if};

use crate::page::Page;
use farm_core::Farm;
use farm_lines::{ListRow, ShownDepend};
use farm_types::{DependNo, JobNo};
use std::alloc::{AllocError, Global};

/// Lists the depends in which a job waits on the page, in the order of their numbers.
pub(crate) fn list_depends(
    alloc: Global,
    farm: &Farm,
    job: JobNo,
    page: &mut Page,
) -> Result<(), AllocError>
    requires { page.old.seen ≡ 0 }
    ensures { OnOk result (page.new ≡ offered_all page.old (depend_rows farm.now job)) }
{
    farm.kept();
    let waiting = farm.waiting(alloc, job)?;
    let numbers = waiting.as_slice();
    let count = numbers.len();
    let mut place = page.next_row(0, count);
    while place < count {
        list_depend(farm, &numbers[place], page)?;
        place = page.next_row(place + 1, count);
    }
    Ok(())
}

// Lists the depend of that number, if there is one.
fn list_depend(farm: &Farm, number: &DependNo, page: &mut Page) -> Result<(), AllocError>
    requires { page.old.seen < 2 ^ 63 }
    ensures { OnOk result (page.new ≡ offered_all page.old (rows_if (option_map depend_row (depend_at farm.now number.now)))) }
{
    let Some(depend) = farm.books().depend(*number) else {
        return Ok(());
    };
    if !page.takes_next() {
        page.pass();
        return Ok(());
    }
    page.push(ListRow::Depend(ShownDepend {
        depend: depend.depend,
        kind: depend.kind,
        satisfied: depend.met_all,
    }))
}
