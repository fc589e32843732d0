//! The cells of the rows of a list.

ghost use Rattle.std.specs.Prelude.{◌≡◌, IfOk, OnOk, map};
ghost use Rattle.farm_lines.specs.declared.list_row.ListRow.TheVariants as list_row;
ghost use Rattle.cue_tool.specs.Listings.{added, cells_of};

use crate::row::Row;
use farm_lines::{
    ListRow, ShownDepend, ShownFrame, ShownHost, ShownJob, ShownLayer, ShownLimit, ShownProc,
    ShownSub,
};
use farm_types::{Items, Text};
use state_names::{host_word, job_word, kind_word, lock_word, state_word};
use std::alloc::{AllocError, Global};

/// The cells of each row.
pub(crate) fn cells_of_rows(
    alloc: Global,
    rows: &[ListRow],
) -> Result<Items<Items<Text>>, AllocError>
    ensures { IfOk result (λ cells. cells ≡ map cells_of rows.now) }
{
    let mut cells = Items::new(alloc);
    for row in rows {
        cells.push(cells_of(alloc, row)?)?;
    }
    Ok(cells)
}

// The cells of a row, in the order of its keys.
fn cells_of(alloc: Global, row: &ListRow) -> Result<Items<Text>, AllocError>
    ensures { IfOk result (λ cells. cells ≡ cells_of row.now) }
{
    let mut cells = Row::new(alloc);
    push_cells(&mut cells, row)?;
    Ok(cells.into_cells())
}

fn push_cells(cells: &mut Row, row: &ListRow) -> Result<(), AllocError>
    ensures { OnOk result (cells.new ≡ added cells.old (cells_of row.now)) }
{
    match row {
        ListRow::Name { name } => cells.text(name.as_str()),
        ListRow::Sub(sub) => push_sub(cells, sub),
        ListRow::Limit(limit) => push_limit(cells, limit),
        ListRow::Host(host) => push_host(cells, host),
        ListRow::Job(job) => push_job(cells, job),
        ListRow::Layer(layer) => push_layer(cells, layer),
        ListRow::Frame(frame) => push_frame(cells, frame),
        ListRow::Depend(depend) => push_depend(cells, depend),
        ListRow::Proc(proc) => push_proc(cells, proc),
    }
}

fn push_sub(cells: &mut Row, sub: &ShownSub) -> Result<(), AllocError>
    ensures { OnOk result (cells.new ≡ added cells.old (cells_of (list_row.Sub sub.now))) }
{
    cells.text(sub.alloc.as_str())?;
    cells.cores(sub.booked)?;
    cells.cores(sub.burst)?;
    cells.text(sub.show.as_str())?;
    cells.cores(sub.size)
}

fn push_limit(cells: &mut Row, limit: &ShownLimit) -> Result<(), AllocError>
    ensures { OnOk result (cells.new ≡ added cells.old (cells_of (list_row.Limit limit.now))) }
{
    cells.whole(u64::from(limit.most))?;
    cells.text(limit.name.as_str())?;
    cells.whole(u64::from(limit.running))
}

fn push_host(cells: &mut Row, host: &ShownHost) -> Result<(), AllocError>
    ensures { OnOk result (cells.new ≡ added cells.old (cells_of (list_row.Host host.now))) }
{
    cells.text(host.alloc.as_str())?;
    cells.whole(u64::from(host.boot))?;
    cells.cores(host.cores)?;
    cells.whole(host.heard)?;
    cells.text(lock_word(host.lock))?;
    cells.memory(host.memory)?;
    cells.text(host.name.as_str())?;
    cells.text(host_word(host.state))?;
    cells.cores(host.used_cores)?;
    cells.memory(host.used_memory)
}

fn push_job(cells: &mut Row, job: &ShownJob) -> Result<(), AllocError>
    ensures { OnOk result (cells.new ≡ added cells.old (cells_of (list_row.Job job.now))) }
{
    cells.whole(u64::from(job.dead))?;
    cells.whole(u64::from(job.depend))?;
    cells.whole(u64::from(job.eaten))?;
    cells.text(job.name.as_str())?;
    cells.flag(job.paused)?;
    cells.whole(u64::from(job.priority))?;
    cells.whole(u64::from(job.running))?;
    cells.text(job.show.as_str())?;
    cells.text(job_word(job.state))?;
    cells.whole(u64::from(job.succeeded))?;
    cells.whole(u64::from(job.waiting))
}

fn push_layer(cells: &mut Row, layer: &ShownLayer) -> Result<(), AllocError>
    ensures { OnOk result (cells.new ≡ added cells.old (cells_of (list_row.Layer layer.now))) }
{
    cells.cores(layer.cores)?;
    cells.whole(u64::from(layer.dead))?;
    cells.whole(u64::from(layer.depend))?;
    cells.whole(u64::from(layer.eaten))?;
    cells.text(layer.limit.as_str())?;
    cells.memory(layer.memory)?;
    cells.text(layer.name.as_str())?;
    cells.text(layer.range.as_str())?;
    cells.whole(u64::from(layer.running))?;
    cells.whole(u64::from(layer.succeeded))?;
    cells.whole(u64::from(layer.waiting))
}

fn push_frame(cells: &mut Row, frame: &ShownFrame) -> Result<(), AllocError>
    ensures { OnOk result (cells.new ≡ added cells.old (cells_of (list_row.Frame frame.now))) }
{
    cells.text(frame.frame.as_str())?;
    cells.whole(u64::from(frame.retries))?;
    cells.text(state_word(frame.state))?;
    cells.whole(u64::from(frame.version.0))
}

fn push_depend(cells: &mut Row, depend: &ShownDepend) -> Result<(), AllocError>
    ensures { OnOk result (cells.new ≡ added cells.old (cells_of (list_row.Depend depend.now))) }
{
    cells.whole(u64::from(depend.depend.0))?;
    cells.text(kind_word(depend.kind))?;
    cells.flag(depend.satisfied)
}

fn push_proc(cells: &mut Row, proc: &ShownProc) -> Result<(), AllocError>
    ensures { OnOk result (cells.new ≡ added cells.old (cells_of (list_row.Proc proc.now))) }
{
    cells.cores(proc.cores)?;
    cells.text(proc.frame.as_str())?;
    cells.text(proc.host.as_str())?;
    cells.text(proc.job.as_str())?;
    cells.memory(proc.memory)?;
    cells.whole(u64::from(proc.slot.0))?;
    cells.whole(u64::from(proc.version.0))
}
