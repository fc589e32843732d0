//! The list of live attempts.

ghost use Rattle.std.specs.Prelude.{◌≡◌, ◌<◌, ◌^◌, IfOk, OnOk};
ghost use Rattle.farm_lines.specs.Lists.{proc_row, proc_rows};
ghost use Rattle.cue_query.specs.Pages.{offered_all};
ghost use Rattle.cue_query.specs.Queries.{rows_of_proc};

use crate::names::{host_name, job_of_frame, name_of_frame};
use crate::page::Page;
use farm_core::Farm;
use farm_lines::{ListRow, ShownProc};
use farm_types::{Frame, ProcRow, SlotRow};
use std::alloc::{AllocError, Global};

/// Lists the live attempts on the page, by slot.
pub(crate) fn list_procs(alloc: Global, farm: &Farm, page: &mut Page) -> Result<(), AllocError>
    requires { page.old.seen ≡ 0 }
    ensures { OnOk result (page.new ≡ offered_all page.old (proc_rows farm.now)) }
{
    for slot in farm.books().slots() {
        list_proc(alloc, farm, slot, page)?;
    }
    Ok(())
}

// Lists the live attempt of a slot, if it has one.
fn list_proc(alloc: Global, farm: &Farm, slot: &SlotRow, page: &mut Page) -> Result<(), AllocError>
    requires { page.old.seen < 2 ^ 63 }
    ensures { OnOk result (page.new ≡ offered_all page.old (rows_of_proc farm.now slot.now)) }
{
    let Some(proc) = &slot.proc else {
        return Ok(());
    };
    if !page.takes_next() {
        page.pass();
        return Ok(());
    }
    let row = shown(alloc, farm, &slot.frame, proc)?;
    page.push(row)
}

// What is shown of a live attempt at a frame.
fn shown(
    alloc: Global,
    farm: &Farm,
    frame: &Option<Frame>,
    proc: &ProcRow,
) -> Result<ListRow, AllocError>
    ensures { IfOk result (λ row. row ≡ proc_row farm.now frame.now proc.now) }
{
    Ok(ListRow::Proc(ShownProc {
        cores: proc.cores,
        frame: name_of_frame(alloc, farm, frame)?,
        host: host_name(alloc, farm, proc.host)?,
        job: job_of_frame(alloc, farm, frame)?,
        memory: proc.memory,
        slot: proc.slot,
        version: proc.version,
    }))
}
