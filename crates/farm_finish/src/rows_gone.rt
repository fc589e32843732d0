//! The rows that go with a job that finishes.

ghost use Rattle.std.specs.Prelude.{◌≡◌, ◌++◌, true, map, OnOk, nat_eq};
ghost use Rattle.indexmap.specs.IndexMap.{get};
ghost use Rattle.farm_types.specs.Kept.{EachOnce, is_kept_slot};
ghost use Rattle.std.specs.List.{list_all};
ghost use Rattle.depend_graph.specs.Graph.{groups_at};
ghost use Rattle.depend_book.specs.Book.{waiting_in};
ghost use Rattle.farm_depends.specs.FollowRows.{delete_mark};
ghost use Rattle.farm_finish.specs.Adding.{AddsFrames, is_of_job};
ghost use Rattle.farm_books.specs.Cleared.{is_in_layer, is_in_layers};
ghost use Rattle.farm_finish.specs.Gone.{depend_gone, depends_gone, job_gone, layer_gone};
ghost use Rattle.farm_finish.specs.Versions.{freed_by};

use crate::versions::version_of;
use depend_book::Depends;
use farm_rows::{FarmRow, FrameRow, RowChange, RowKey};
use farm_types::{DependNo, JobNo, LayerRow, MetRow, Slot, Version};
use indexmap::IndexMap;
use job_book::Jobs;
use std::alloc::{AllocError, Global};

/// The row of a finished job goes, where one leaves.
pub(crate) fn job_goes(changes: &mut Vec<RowChange>, gone: Option<JobNo>) -> Result<(), AllocError>
    ensures { OnOk result (changes.new.items ≡ changes.old.items ++ job_gone gone) }
{
    let Some(job) = gone else {
        return Ok(());
    };
    changes.push(RowChange::Delete {
        key: RowKey::Job { job },
    })?;
    Ok(())
}

/// The rows of the job's layers go.
pub(crate) fn layers_go(
    changes: &mut Vec<RowChange>,
    job: JobNo,
    layers: &[LayerRow],
) -> Result<(), AllocError>
    ensures { OnOk result (changes.new.items ≡ changes.old.items ++ map (layer_gone job) layers.now) }
{
    for layer in layers {
        changes.push(RowChange::Delete {
            key: RowKey::Layer {
                job,
                place: layer.place,
            },
        })?;
    }
    Ok(())
}

/// The slots of the job's frames are free, one version later.
pub(crate) fn frames_go(
    changes: &mut Vec<RowChange>,
    book: &Jobs,
    versions: &IndexMap<u32, Version>,
    job: JobNo,
) -> Result<(), AllocError>
    requires kept { list_all (is_kept_slot book.now.layers) book.now.slots ≡ true }
    requires once { EachOnce book.now.slots }
    ensures { OnOk result (AddsFrames book.now.slots (get nat_eq versions.now) (is_of_job book.now.slots job) changes.old.items changes.new.items) }
{
    layers_free(changes, book, versions, job, book.layers_of(job))
}

// The slots of the frames of these layers are free.
fn layers_free(
    changes: &mut Vec<RowChange>,
    book: &Jobs,
    versions: &IndexMap<u32, Version>,
    job: JobNo,
    layers: &[LayerRow],
) -> Result<(), AllocError>
    requires { EachOnce book.now.slots }
    ensures { OnOk result (AddsFrames book.now.slots (get nat_eq versions.now) (is_in_layers book.now.slots job layers.now)
        changes.old.items changes.new.items) }
{
    for layer in layers {
        layer_free(changes, book, versions, job, layer.place)?;
    }
    Ok(())
}

// The slots of the frames of the layer at that place are free.
fn layer_free(
    changes: &mut Vec<RowChange>,
    book: &Jobs,
    versions: &IndexMap<u32, Version>,
    job: JobNo,
    place: u32,
) -> Result<(), AllocError>
    requires { EachOnce book.now.slots }
    ensures { OnOk result (AddsFrames book.now.slots (get nat_eq versions.now) (is_in_layer book.now.slots job place) changes.old.items changes.new.items) }
{
    slots_free(changes, book, versions, book.layer_slots(job, place))
}

// The slots are free.
fn slots_free(
    changes: &mut Vec<RowChange>,
    book: &Jobs,
    versions: &IndexMap<u32, Version>,
    slots: &[Slot],
) -> Result<(), AllocError>
    ensures { OnOk result (changes.new.items ≡ changes.old.items ++ map (freed_by book.now.slots (get nat_eq versions.now)) slots.now) }
{
    for slot in slots {
        let version = version_of(book, versions, *slot).next();
        changes.push(RowChange::Put(FarmRow::Frame(FrameRow {
            slot: *slot,
            version,
            frame: None,
        })))?;
    }
    Ok(())
}

/// The rows of the depends in which the job waits go, with the marks of their groups.
pub(crate) fn depends_go(
    changes: &mut Vec<RowChange>,
    alloc: Global,
    depends: &Depends,
    job: JobNo,
) -> Result<(), AllocError>
    ensures { OnOk result (changes.new.items ≡ changes.old.items ++ depends_gone (groups_at depends.now.graph.depends) (waiting_in depends.now job)) }
{
    let waiting = depends.waiting(alloc, job)?;
    each_depend_goes(changes, alloc, depends, waiting.as_slice())
}

// The rows of these depends go.
fn each_depend_goes(
    changes: &mut Vec<RowChange>,
    alloc: Global,
    depends: &Depends,
    gone: &[DependNo],
) -> Result<(), AllocError>
    ensures { OnOk result (changes.new.items ≡ changes.old.items ++ depends_gone (groups_at depends.now.graph.depends) gone.now) }
{
    for depend in gone {
        depend_goes(changes, alloc, depends, *depend)?;
    }
    Ok(())
}

// The row of the depend goes, with the marks of its groups.
fn depend_goes(
    changes: &mut Vec<RowChange>,
    alloc: Global,
    depends: &Depends,
    depend: DependNo,
) -> Result<(), AllocError>
    ensures { OnOk result (changes.new.items ≡ changes.old.items ++ depend_gone (groups_at depends.now.graph.depends) depend) }
{
    let marks = depends.marks_of(alloc, depend)?;
    changes.push(RowChange::Delete {
        key: RowKey::Depend { depend },
    })?;
    marks_go(changes, marks.as_slice())
}

// The marks go, where they are.
fn marks_go(changes: &mut Vec<RowChange>, marks: &[MetRow]) -> Result<(), AllocError>
    ensures { OnOk result (changes.new.items ≡ changes.old.items ++ map delete_mark marks.now) }
{
    for mark in marks {
        changes.push(RowChange::Delete {
            key: RowKey::Met {
                depend: mark.depend,
                position: mark.position,
            },
        })?;
    }
    Ok(())
}
