//! The list of a job's frames.

ghost use Rattle.std.specs.Prelude.{◌≡◌, ◌<◌, ◌^◌, IfOk, OnOk, None, Some};
ghost use Rattle.farm_lines.specs.Lists.{frame_row, frame_rows, frames_in};
ghost use Rattle.cue_query.specs.Pages.{offered_all};
ghost use Rattle.cue_query.specs.Queries.{IsLayerOf, frame_at, rows_if, rows_of_slot};

use crate::page::Page;
use command_text::frame_name;
use farm_core::Farm;
use farm_lines::{ListRow, ShownFrame};
use farm_types::{Frame, JobNo, LayerRow, Slot, SlotRow, Version};
use std::alloc::{AllocError, Global};

/// Lists the frames of a pending job on the page, layer by layer, each in range order.
pub(crate) fn list_frames(
    alloc: Global,
    farm: &Farm,
    job: JobNo,
    page: &mut Page,
) -> Result<(), AllocError>
    requires { page.old.seen ≡ 0 }
    ensures { OnOk result (page.new ≡ offered_all page.old (frame_rows farm.now job)) }
{
    farm.kept();
    for layer in farm.books().jobs().layers_of(job) {
        list_frames_in(alloc, farm, layer, page)?;
    }
    Ok(())
}

// Lists the frames of a layer of the farm, in range order.
fn list_frames_in(
    alloc: Global,
    farm: &Farm,
    layer: &LayerRow,
    page: &mut Page,
) -> Result<(), AllocError>
    requires there { IsLayerOf farm.now layer.now }
    requires room { page.old.seen < 2 ^ 62 }
    ensures { OnOk result (page.new ≡ offered_all page.old (frames_in farm.now layer.now)) }
{
    farm.kept();
    let slots = farm.books().jobs().layer_slots(layer.job, layer.place);
    let count = slots.len();
    let mut place = page.next_row(0, count);
    while place < count {
        list_frame_at(alloc, farm, &slots[place], layer.name.as_str(), page)?;
        place = page.next_row(place + 1, count);
    }
    Ok(())
}

// Lists the frame in the slot of that number, if there is one, of the layer of that name.
fn list_frame_at(
    alloc: Global,
    farm: &Farm,
    slot: &Slot,
    layer: &str,
    page: &mut Page,
) -> Result<(), AllocError>
    requires { page.old.seen < 2 ^ 63 }
    ensures { OnOk result (page.new ≡ offered_all page.old (rows_if (frame_at farm.now layer.now slot.now))) }
{
    let Some(row) = farm.books().slot(*slot) else {
        return Ok(());
    };
    list_frame(alloc, &row, layer, page)
}

// Lists the frame in a slot, if there is one, of the layer of that name.
fn list_frame(alloc: Global, slot: &SlotRow, layer: &str, page: &mut Page) -> Result<(), AllocError>
    requires { page.old.seen < 2 ^ 63 }
    ensures { OnOk result (page.new ≡ offered_all page.old (rows_of_slot layer.now slot.now)) }
{
    let Some(frame) = &slot.frame else {
        return Ok(());
    };
    if !page.takes_next() {
        page.pass();
        return Ok(());
    }
    let row = shown(alloc, slot.version, frame, layer)?;
    page.push(row)
}

// What is shown of a frame in a slot of that version.
fn shown(alloc: Global, version: Version, frame: &Frame, layer: &str) -> Result<ListRow, AllocError>
    ensures { IfOk result (λ row. Some row ≡ frame_row layer.now (record { version = version; frame = Some frame.now; proc = None })) }
{
    Ok(ListRow::Frame(ShownFrame {
        frame: frame_name(alloc, frame.number, layer)?,
        retries: frame.retries,
        state: frame.state,
        version,
    }))
}
