//! Depends: as they are asked for, as they are recorded, and the groups of frames that wait by them.

ghost use Rattle.std.specs.Prelude.{◌≡◌, IfOk};

use crate::items::Items;
use crate::numbers::{DependNo, JobNo, Slot};
use crate::text::Text;
use std::alloc::{AllocError, Global};

/// The kinds of depends, after OpenCue: who waits, and for whom.
#[derive(Clone, Copy, Debug, PartialEq, Eq)]
pub enum DependKind {
    JobOnJob,
    JobOnLayer,
    JobOnFrame,
    LayerOnJob,
    LayerOnLayer,
    LayerOnFrame,
    FrameOnJob,
    FrameOnLayer,
    FrameOnFrame,
    FrameByFrame,
    PreviousFrame,
}

/// One end of a depend, by names: all frames of a job, all of one of its layers, or the one of that number in the layer.
#[derive(Debug, Drop)]
pub struct Place {
    pub job: Text,
    pub layer: Option<Text>,
    pub frame: Option<i32>,
}

/// A depend as it is asked for. `any` says that one target is enough for each group.
#[derive(Debug, Drop)]
pub struct DependSpec {
    pub kind: DependKind,
    pub any: bool,
    pub waiter: Place,
    pub target: Place,
}

/// One end of a depend: all frames of a job, all of one of its layers, or the one of that number in the layer.
#[derive(Debug, Drop)]
pub struct DependEnd {
    pub job: JobNo,
    pub layer: Option<Text>,
    pub frame: Option<i32>,
}

/// A depend. `any` says that one target is enough for each group, and `met_all` that all its groups are met.
#[derive(Debug, Drop)]
pub struct DependRow {
    pub depend: DependNo,
    pub kind: DependKind,
    pub any: bool,
    pub met_all: bool,
    pub waiter: DependEnd,
    pub target: DependEnd,
}

/// A group of a depend that is met, named by its position among the depend's groups.
#[derive(Clone, Copy, Debug, PartialEq, Eq)]
pub struct MetRow {
    pub depend: DependNo,
    pub position: u32,
}

/// Frames that wait, and the frames that they wait for, all of them or any one, by slot. Of a depend with a group for each waiting frame
/// `position` is that frame's in its layer.
#[derive(Debug, Drop)]
pub struct Group {
    pub position: u32,
    pub waiters: Items<Slot>,
    pub targets: Items<Slot>,
    pub any: bool,
}

/// The layers of a job in order, each with its frames in range order.
#[derive(Debug, Drop)]
pub struct Shape {
    pub layers: Items<LayerShape>,
}

/// A layer's frames in range order: their numbers, and their slots.
#[derive(Debug, Drop)]
pub struct LayerShape {
    pub name: Text,
    pub numbers: Items<i32>,
    pub slots: Items<Slot>,
}

impl DependSpec {
    /// An equal depend.
    pub fn copy(&self, alloc: Global) -> Result<DependSpec, AllocError>
        ensures { IfOk result (λ copy. copy ≡ self.now) }
    {
        Ok(DependSpec {
            kind: self.kind,
            any: self.any,
            waiter: self.waiter.copy(alloc)?,
            target: self.target.copy(alloc)?,
        })
    }
}

impl Place {
    /// An equal end.
    pub fn copy(&self, alloc: Global) -> Result<Place, AllocError>
        ensures { IfOk result (λ copy. copy ≡ self.now) }
    {
        Ok(Place {
            job: self.job.copy(alloc)?,
            layer: copy_of_name(alloc, &self.layer)?,
            frame: self.frame,
        })
    }
}

impl DependEnd {
    /// An equal end.
    pub fn copy(&self, alloc: Global) -> Result<DependEnd, AllocError>
        ensures { IfOk result (λ copy. copy ≡ self.now) }
    {
        Ok(DependEnd {
            job: self.job,
            layer: copy_of_name(alloc, &self.layer)?,
            frame: self.frame,
        })
    }
}

impl DependRow {
    /// An equal depend.
    pub fn copy(&self, alloc: Global) -> Result<DependRow, AllocError>
        ensures { IfOk result (λ copy. copy ≡ self.now) }
    {
        Ok(DependRow {
            depend: self.depend,
            kind: self.kind,
            any: self.any,
            met_all: self.met_all,
            waiter: self.waiter.copy(alloc)?,
            target: self.target.copy(alloc)?,
        })
    }
}

// An equal name, or none.
fn copy_of_name(alloc: Global, name: &Option<Text>) -> Result<Option<Text>, AllocError>
    ensures { IfOk result (λ copy. copy ≡ name.now) }
{
    match name {
        None => Ok(None),
        Some(name) => Ok(Some(name.copy(alloc)?)),
    }
}

impl Items<DependSpec> {
    /// Equal depends.
    pub fn copy(&self, alloc: Global) -> Result<Items<DependSpec>, AllocError>
        ensures { IfOk result (λ copies. copies ≡ self.now) }
    {
        copies_of(alloc, self.as_slice())
    }
}

// Equal depends.
fn copies_of(alloc: Global, depends: &[DependSpec]) -> Result<Items<DependSpec>, AllocError>
    ensures { IfOk result (λ copies. copies ≡ depends.now) }
{
    let mut copies = Items::new(alloc);
    for depend in depends {
        copies.push(depend.copy(alloc)?)?;
    }
    Ok(copies)
}
