//! The list of hosts.

ghost use Rattle.std.specs.Prelude.{◌≡◌, ◌<◌, ◌^◌, IfOk, OnOk, option_map, slice_get};
ghost use Rattle.farm_lines.specs.Lists.{host_row, host_rows};
ghost use Rattle.cue_query.specs.Pages.{offered_all};
ghost use Rattle.cue_query.specs.Queries.{rows_if};

use crate::names::alloc_name;
use crate::page::Page;
use farm_core::Farm;
use farm_lines::{ListRow, ShownHost};
use farm_types::{HostNo, HostRow};
use std::alloc::{AllocError, Global};

/// Lists the hosts on the page, in the order of their numbers.
pub(crate) fn list_hosts(alloc: Global, farm: &Farm, page: &mut Page) -> Result<(), AllocError>
    requires { page.old.seen ≡ 0 }
    ensures { OnOk result (page.new ≡ offered_all page.old (host_rows farm.now 0 farm.now.hosts)) }
{
    let count = farm.books().count_hosts();
    let mut place = page.next_row(0, count);
    while place < count {
        list_host(alloc, farm, HostNo(place as u16), page)?;
        place = page.next_row(place + 1, count);
    }
    Ok(())
}

// Lists the host of that number, if there is one.
fn list_host(alloc: Global, farm: &Farm, number: HostNo, page: &mut Page) -> Result<(), AllocError>
    requires { page.old.seen < 2 ^ 63 }
    ensures { OnOk result (page.new ≡ offered_all page.old (rows_if (option_map (host_row farm.now number) (slice_get farm.now.hosts number)))) }
{
    let Some(host) = farm.books().host(number) else {
        return Ok(());
    };
    if !page.takes_next() {
        page.pass();
        return Ok(());
    }
    let row = shown(alloc, farm, number, host)?;
    page.push(row)
}

// What is shown of a host.
fn shown(alloc: Global, farm: &Farm, number: HostNo, host: &HostRow) -> Result<ListRow, AllocError>
    ensures { IfOk result (λ row. row ≡ host_row farm.now number host.now) }
{
    let (used_cores, used_memory) = farm.used(number);
    Ok(ListRow::Host(ShownHost {
        alloc: alloc_name(alloc, farm, host.alloc)?,
        boot: host.boot,
        cores: host.cores,
        heard: host.heard,
        lock: host.lock,
        memory: host.memory,
        name: host.name.copy(alloc)?,
        state: host.state,
        used_cores,
        used_memory,
    }))
}
