//! The list of a job's layers.

ghost use Rattle.std.specs.Prelude.{◌≡◌, ◌<◌, ◌^◌, [], IfOk, OnOk};
ghost use Rattle.farm_lines.specs.Lists.{layer_row, layer_rows, slots_in};
ghost use Rattle.job_entries.specs.Counting.{part, counted_in};
ghost use Rattle.cue_query.specs.Counts.{counts_among};
ghost use Rattle.cue_query.specs.Queries.{IsLayerOf};
ghost use Rattle.cue_query.specs.Pages.{offered, offered_all};

use crate::names::limit_name;
use crate::page::Page;
use farm_core::Farm;
use farm_lines::{ListRow, ShownLayer};
use farm_types::{FrameState, JobNo, LayerRow};
use job_book::Counts;
use std::alloc::{AllocError, Global};

/// Lists the layers of a pending job on the page, in order.
pub(crate) fn list_layers(
    alloc: Global,
    farm: &Farm,
    job: JobNo,
    page: &mut Page,
) -> Result<(), AllocError>
    requires { page.old.seen ≡ 0 }
    ensures { OnOk result (page.new ≡ offered_all page.old (layer_rows farm.now job)) }
{
    let layers = farm.books().jobs().layers_of(job);
    let count = layers.len();
    let mut place = page.next_row(0, count);
    while place < count {
        list_layer(alloc, farm, &layers[place], page)?;
        place = page.next_row(place + 1, count);
    }
    Ok(())
}

// Lists a layer of the farm.
fn list_layer(
    alloc: Global,
    farm: &Farm,
    layer: &LayerRow,
    page: &mut Page,
) -> Result<(), AllocError>
    requires there { IsLayerOf farm.now layer.now }
    requires room { page.old.seen < 2 ^ 63 }
    ensures { OnOk result (page.new ≡ offered page.old (layer_row farm.now layer.now)) }
{
    if !page.takes_next() {
        page.pass();
        return Ok(());
    }
    let row = shown(alloc, farm, layer)?;
    page.push(row)
}

// What is shown of a layer.
fn shown(alloc: Global, farm: &Farm, layer: &LayerRow) -> Result<ListRow, AllocError>
    requires { IsLayerOf farm.now layer.now }
    ensures { IfOk result (λ row. row ≡ layer_row farm.now layer.now) }
{
    let counts = counts_of(farm, layer);
    Ok(ListRow::Layer(ShownLayer {
        cores: layer.cores,
        dead: counts.dead,
        depend: counts.depend,
        eaten: counts.eaten,
        limit: limit_name(alloc, farm, layer.limit)?,
        memory: layer.memory,
        name: layer.name.copy(alloc)?,
        range: layer.range.copy(alloc)?,
        running: counts.running,
        succeeded: counts.succeeded,
        waiting: counts.waiting,
    }))
}

// How many frames of a layer of the farm are in each state.
fn counts_of(farm: &Farm, layer: &LayerRow) -> Counts
    requires { IsLayerOf farm.now layer.now }
    ensures { result ≡ counts_among (slots_in farm.now layer.now) }
{
    farm.kept();
    let mut counts = no_counts();
    for slot in farm.books().jobs().layer_slots(layer.job, layer.place) {
        let Some(state) = farm.books().jobs().state(*slot).0 else {
            continue;
        };
        count(&mut counts, state);
    }
    counts
}

// No frame.
fn no_counts() -> Counts
    ensures { result ≡ counts_among [] }
{
    Counts {
        waiting: 0,
        setup: 0,
        running: 0,
        succeeded: 0,
        depend: 0,
        dead: 0,
        eaten: 0,
    }
}

// One frame more, in that state.
fn count(counts: &mut Counts, state: FrameState)
    requires { part state counts.old < 2 ^ 31 }
    ensures { counts.new ≡ counted_in state counts.old }
{
    match state {
        FrameState::Waiting => counts.waiting += 1,
        FrameState::Setup => counts.setup += 1,
        FrameState::Running => counts.running += 1,
        FrameState::Succeeded => counts.succeeded += 1,
        FrameState::Depend => counts.depend += 1,
        FrameState::Dead => counts.dead += 1,
        FrameState::Eaten => counts.eaten += 1,
    }
}
