//! A job as it is submitted.

ghost use Rattle.std.specs.Prelude.{◌≡◌, IfOk};
ghost use Rattle.farm_types.specs.Jobs.{frames_in};

use crate::depend::DependSpec;
use crate::items::Items;
use crate::numbers::{Cores, Kb};
use crate::text::Text;
use std::alloc::{AllocError, Global};

/// A job: its name, show and facility, shot and user (empty where none is said), its priority from 1 to
/// 1,000,000, its greatest number of retries from 0 to 16, its layers, which have 1 to 10,000 frames
/// together, and its depends, in each of which the job itself waits.
#[derive(Debug, Drop)]
pub struct JobSpec {
    pub name: Text,
    pub show: Text,
    pub facility: Text,
    pub shot: Text,
    pub user: Text,
    pub priority: u32,
    pub max_retries: u32,
    pub auto_eat: bool,
    pub paused: bool,
    pub layers: Items<LayerSpec>,
    pub depends: Items<DependSpec>,
}

/// A layer: its frame range as it is printed and the range's numbers in order, its command, what each
/// attempt at one of its frames books, its tags, and the name of its limit (empty where it has none).
#[derive(Debug, Drop)]
pub struct LayerSpec {
    pub name: Text,
    pub range: Text,
    pub numbers: Items<i32>,
    pub command: Text,
    pub cores: Cores,
    pub memory: Kb,
    pub tags: Items<Text>,
    pub limit: Text,
}

impl JobSpec {
    /// An equal job.
    pub fn copy(&self, alloc: Global) -> Result<JobSpec, AllocError>
        ensures { IfOk result (λ copy. copy ≡ self.now) }
    {
        Ok(JobSpec {
            name: self.name.copy(alloc)?,
            show: self.show.copy(alloc)?,
            facility: self.facility.copy(alloc)?,
            shot: self.shot.copy(alloc)?,
            user: self.user.copy(alloc)?,
            priority: self.priority,
            max_retries: self.max_retries,
            auto_eat: self.auto_eat,
            paused: self.paused,
            layers: copies_of_layers(alloc, self.layers.as_slice())?,
            depends: self.depends.copy(alloc)?,
        })
    }
}

impl LayerSpec {
    /// An equal layer.
    pub fn copy(&self, alloc: Global) -> Result<LayerSpec, AllocError>
        ensures { IfOk result (λ copy. copy ≡ self.now) }
    {
        Ok(LayerSpec {
            name: self.name.copy(alloc)?,
            range: self.range.copy(alloc)?,
            numbers: self.numbers.copy(alloc)?,
            command: self.command.copy(alloc)?,
            cores: self.cores,
            memory: self.memory,
            tags: self.tags.copy(alloc)?,
            limit: self.limit.copy(alloc)?,
        })
    }
}

// Equal layers.
fn copies_of_layers(alloc: Global, layers: &[LayerSpec]) -> Result<Items<LayerSpec>, AllocError>
    ensures { IfOk result (λ copies. copies ≡ layers.now) }
{
    let mut copies = Items::new(alloc);
    for layer in layers {
        copies.push(layer.copy(alloc)?)?;
    }
    Ok(copies)
}

impl Items<LayerSpec> {
    /// How many frames the layers have together.
    pub fn count_frames(&self) -> u128
        ensures { result ≡ frames_in self.now }
    {
        frames_of(self.as_slice())
    }
}

// How many frames the layers have together.
fn frames_of(layers: &[LayerSpec]) -> u128
    ensures { result ≡ frames_in layers.now }
{
    let mut frames = 0;
    for layer in layers {
        frames += layer.numbers.len() as u128;
    }
    frames
}
