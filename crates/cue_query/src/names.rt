//! Names by numbers: of shows, allocations, limits, hosts, jobs and frames.

ghost use Rattle.std.specs.Prelude.{◌≡◌, [], IfOk};
ghost use Rattle.farm_types.specs.DependActs.{name_of_frame};
ghost use Rattle.farm_types.specs.Farm.{alloc_name};
ghost use Rattle.farm_lines.specs.Lists.{host_name, job_of_frame, limit_name, name_at_alloc, show_name};

use command_text::frame_name;
use farm_core::Farm;
use farm_types::{AllocNo, AllocRow, Frame, HostNo, LimitNo, ShowNo, Text};
use std::alloc::{AllocError, Global};

/// The name of the show of that number, empty where there is none.
pub(crate) fn show_name(alloc: Global, farm: &Farm, show: ShowNo) -> Result<Text, AllocError>
    ensures { IfOk result (λ name. name ≡ show_name farm.now show) }
{
    match farm.books().show(show) {
        None => Ok(no_name(alloc)),
        Some(row) => row.name.copy(alloc),
    }
}

/// The name of the allocation of that number, empty where there is none.
pub(crate) fn alloc_name(alloc: Global, farm: &Farm, number: AllocNo) -> Result<Text, AllocError>
    ensures { IfOk result (λ name. name ≡ name_at_alloc farm.now number) }
{
    match farm.books().allocation(number) {
        None => Ok(no_name(alloc)),
        Some(row) => name_of_alloc(alloc, row),
    }
}

/// An allocation's name: its facility, a point, and its tag.
pub(crate) fn name_of_alloc(alloc: Global, row: &AllocRow) -> Result<Text, AllocError>
    ensures { IfOk result (λ name. name ≡ alloc_name row.now.facility row.now.tag) }
{
    let mut name = row.facility.copy(alloc)?.into_string();
    name.push_str(".")?;
    name.push_str(row.tag.as_str())?;
    Ok(Text::from_string(name))
}

/// The name of the limit of that number, empty where there is none.
pub(crate) fn limit_name(
    alloc: Global,
    farm: &Farm,
    limit: Option<LimitNo>,
) -> Result<Text, AllocError>
    ensures { IfOk result (λ name. name ≡ limit_name farm.now limit) }
{
    let Some(limit) = limit else {
        return Ok(no_name(alloc));
    };
    match farm.books().limits().row(limit) {
        None => Ok(no_name(alloc)),
        Some(row) => row.name.copy(alloc),
    }
}

/// The name of the host of that number, empty where there is none.
pub(crate) fn host_name(alloc: Global, farm: &Farm, host: HostNo) -> Result<Text, AllocError>
    ensures { IfOk result (λ name. name ≡ host_name farm.now host) }
{
    match farm.books().host(host) {
        None => Ok(no_name(alloc)),
        Some(row) => row.name.copy(alloc),
    }
}

/// The name of a frame's job, empty where there is none.
pub(crate) fn job_of_frame(
    alloc: Global,
    farm: &Farm,
    frame: &Option<Frame>,
) -> Result<Text, AllocError>
    ensures { IfOk result (λ name. name ≡ job_of_frame farm.now frame.now) }
{
    let Some(frame) = frame else {
        return Ok(no_name(alloc));
    };
    match farm.books().job(frame.job) {
        None => Ok(no_name(alloc)),
        Some(row) => row.name.copy(alloc),
    }
}

/// The name of a frame, empty where there is none.
pub(crate) fn name_of_frame(
    alloc: Global,
    farm: &Farm,
    frame: &Option<Frame>,
) -> Result<Text, AllocError>
    ensures { IfOk result (λ name. name ≡ name_of_frame farm.now frame.now) }
{
    let Some(frame) = frame else {
        return Ok(no_name(alloc));
    };
    match farm.books().layer(frame.job, frame.layer) {
        None => frame_name(alloc, frame.number, ""),
        Some(layer) => frame_name(alloc, frame.number, layer.name.as_str()),
    }
}

// The empty name.
fn no_name(alloc: Global) -> Text
    ensures { result ≡ [] }
{
    Text::from_string(String::new(alloc))
}
