//! Lists of the farm.

ghost use Rattle.std.specs.Prelude.{◌≡◌};
ghost use Rattle.farm_lines.specs.Lists.{page_listed, rows_listed};
ghost use Rattle.cue_query.specs.Queries.{FindsJob, IsListed, Shows};

use crate::depends::list_depends;
use crate::frames::list_frames;
use crate::hosts::list_hosts;
use crate::jobs::list_jobs;
use crate::layers::list_layers;
use crate::limits::list_limits;
use crate::page::Page;
use crate::procs::list_procs;
use crate::shows::{list_allocs, list_shows};
use crate::subs::list_subs;
use farm_core::Farm;
use farm_lines::{ListReply, Listed, Query};
use farm_places::missing;
use farm_types::{FarmFault, JobNo, Text};
use std::alloc::Global;

/// What a list shows of the farm, from its place on: at most 1,000 rows, and how many there are in all. The layers, frames and
/// depends of a job that is finished, or isn't there, are refused.
pub fn list(alloc: Global, farm: &Farm, query: &Query) -> Result<ListReply, FarmFault>
    ensures { Shows (page_listed farm.now query.now) result }
{
    let mut page = Page::new(alloc, query.from);
    list_rows(alloc, farm, &query.what, &mut page)?;
    Ok(page.into_reply())
}

// Lists what is asked for on the page.
fn list_rows(alloc: Global, farm: &Farm, what: &Listed, page: &mut Page) -> Result<(), FarmFault>
    requires { page.old.seen ≡ 0 }
    ensures { IsListed (rows_listed farm.now what.now) page.old result page.new }
{
    match what {
        Listed::Shows => Ok(list_shows(alloc, farm, page)?),
        Listed::Allocs => Ok(list_allocs(alloc, farm, page)?),
        Listed::Subs => Ok(list_subs(alloc, farm, page)?),
        Listed::Limits => Ok(list_limits(alloc, farm, page)?),
        Listed::Hosts => Ok(list_hosts(alloc, farm, page)?),
        Listed::Jobs => Ok(list_jobs(alloc, farm, page)?),
        Listed::Layers { job } => {
            let job = pending(alloc, farm, job)?;
            Ok(list_layers(alloc, farm, job, page)?)
        }
        Listed::Frames { job } => {
            let job = pending(alloc, farm, job)?;
            Ok(list_frames(alloc, farm, job, page)?)
        }
        Listed::Depends { job } => {
            let job = pending(alloc, farm, job)?;
            Ok(list_depends(alloc, farm, job, page)?)
        }
        Listed::Procs => Ok(list_procs(alloc, farm, page)?),
    }
}

// The number of the pending job of that name.
fn pending(alloc: Global, farm: &Farm, name: &Text) -> Result<JobNo, FarmFault>
    ensures { FindsJob farm.now name.now result }
{
    let jobs = farm.books().jobs();
    let Some(job) = jobs.pending(name.as_str()) else {
        return Err(missing(alloc, jobs, name));
    };
    Ok(job)
}
