//! What a job spec says, before its amounts are judged.

use farm_types::{DependSpec, Items, Text};

/// The fields of a job spec, defaults in the place of those that were left out: names, words and flags are of
/// their form, and numbers are any of 64 bits. In each of the depends the job itself waits.
#[derive(Debug, Drop)]
pub struct JobForm {
    pub name: Text,
    pub show: Text,
    pub facility: Text,
    pub shot: Text,
    pub user: Text,
    pub priority: u64,
    pub max_retries: u64,
    pub auto_eat: bool,
    pub paused: bool,
    pub layers: Items<LayerForm>,
    pub depends: Items<DependSpec>,
}

/// The fields of a layer: the range, the command and the cores are texts of any length, and the limit is a name or empty.
#[derive(Debug, Drop)]
pub struct LayerForm {
    pub name: Text,
    pub range: Text,
    pub command: Text,
    pub cores: Text,
    pub memory: u64,
    pub tags: Items<Text>,
    pub limit: Text,
}
