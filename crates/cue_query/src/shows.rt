//! The lists of shows and of allocations.

ghost use Rattle.std.specs.Prelude.{◌≡◌, ◌<◌, ◌^◌, map, OnOk};
ghost use Rattle.farm_lines.specs.declared.list_row.ListRow.TheVariants.{Name};
ghost use Rattle.farm_lines.specs.Lists.{alloc_row, show_row};
ghost use Rattle.cue_query.specs.Pages.{offered, offered_all};

use crate::names::name_of_alloc;
use crate::page::Page;
use farm_core::Farm;
use farm_lines::ListRow;
use farm_types::{AllocNo, AllocRow, ShowNo, ShowRow};
use std::alloc::{AllocError, Global};

/// Lists the shows on the page, in the order of their numbers.
pub(crate) fn list_shows(alloc: Global, farm: &Farm, page: &mut Page) -> Result<(), AllocError>
    requires { page.old.seen ≡ 0 }
    ensures { OnOk result (page.new ≡ offered_all page.old (map show_row farm.now.shows)) }
{
    farm.kept();
    let mut number = 0;
    while let Some(show) = farm.books().show(ShowNo(number)) {
        list_show(alloc, show, page)?;
        number += 1;
    }
    Ok(())
}

/// Lists the allocations on the page, in the order of their numbers.
pub(crate) fn list_allocs(alloc: Global, farm: &Farm, page: &mut Page) -> Result<(), AllocError>
    requires { page.old.seen ≡ 0 }
    ensures { OnOk result (page.new ≡ offered_all page.old (map alloc_row farm.now.allocs)) }
{
    farm.kept();
    let mut number = 0;
    while let Some(row) = farm.books().allocation(AllocNo(number)) {
        list_alloc(alloc, row, page)?;
        number += 1;
    }
    Ok(())
}

// Lists a show.
fn list_show(alloc: Global, show: &ShowRow, page: &mut Page) -> Result<(), AllocError>
    requires { page.old.seen < 2 ^ 63 }
    ensures { OnOk result (page.new ≡ offered page.old (show_row show.now)) }
{
    if !page.takes_next() {
        page.pass();
        return Ok(());
    }
    let name = show.name.copy(alloc)?;
    page.push(ListRow::Name { name })
}

// Lists an allocation.
fn list_alloc(alloc: Global, row: &AllocRow, page: &mut Page) -> Result<(), AllocError>
    requires { page.old.seen < 2 ^ 63 }
    ensures { OnOk result (page.new ≡ offered page.old (alloc_row row.now)) }
{
    if !page.takes_next() {
        page.pass();
        return Ok(());
    }
    let name = name_of_alloc(alloc, row)?;
    page.push(ListRow::Name { name })
}
