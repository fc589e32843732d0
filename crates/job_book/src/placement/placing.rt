//! Where a job is to be placed, and the memory for it.

use farm_types::{Items, JobNo, LayerRow, LimitNo, ShowNo, Slot};
use job_index::LayerFrames;
use std::marker::Model;

/// Where a job is to be placed: its number and its show's, the limit of each of its layers, where it has one, the slots that its
/// frames take, layer by layer and each in range order, and how many frames it has. The slots are looked for once, when the job
/// is checked.
#[derive(Debug, Drop)]
pub struct Placing {
    pub job: JobNo,
    pub show: ShowNo,
    pub limits: Items<Option<LimitNo>>,
    pub slots: Items<Slot>,
    pub frames: u32,
}

/// The memory that a job needs beside its spec, reserved before the job is placed: once more its name, for the index of names,
/// the lists of its layers' slots, and room for the layers' rows.
#[derive(Debug, Drop)]
pub struct JobSpare {
    pub(crate) name: String,
    pub(crate) index: Vec<LayerFrames>,
    pub(crate) rows: Vec<LayerRow>,
}

impl Model for JobSpare {
    ghost use Rattle.std.specs.Prelude.{◌≡◌, ◌≤◌, [], length, string_bytes};
    ghost use Rattle.std.specs.Vec.{vec_capacity};
    ghost use Rattle.job_book.specs.Layers as types;

    ghost Value = { types.Spare };

    ghost view = { λ a. record { name = string_bytes a.name; layers = a.index.items } };

    ghost invariant = { λ a. (a.rows.items ≡ []) × (length a.index.items ≤ vec_capacity a.rows) };
}
