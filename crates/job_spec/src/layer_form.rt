//! Reading the fields of a layer.

ghost use Rattle.farm_lines.specs.Spec.{layer_form_at};

use crate::{defaults, words};
use cue_json::{FieldFault, ItemReader, Map};
use farm_lines::{LayerForm, read_name, read_text};
use std::alloc::Global;

/// Reads a layer: its fields in order, and no others.
#[derive(Debug, Drop)]
pub struct LayerReader;

impl ItemReader for LayerReader {
    type Item = LayerForm;

    ghost reads = { λ reader. layer_form_at };

    #[tactic(auto, unfolding(farm_lines::specs::Spec::layer_form_at))]
    fn read(&self, alloc: Global, object: &Map) -> Result<LayerForm, FieldFault> {
        let name = read_name(alloc, object, "name")?;
        let range = read_text(alloc, object, "range")?;
        let command = words::command(alloc, object, "command")?;
        let cores = defaults::text(alloc, object, "cores", "1")?;
        let memory = defaults::number(alloc, object, "memory", 3_355_443)?;
        let tags = defaults::tags(alloc, object, "tags")?;
        let limit = defaults::name(alloc, object, "limit")?;
        cue_json::no_others(
            alloc,
            object,
            &[
                "command", "cores", "limit", "memory", "name", "range", "tags",
            ],
        )?;
        Ok(LayerForm {
            name,
            range,
            command,
            cores,
            memory,
            tags,
            limit,
        })
    }
}
