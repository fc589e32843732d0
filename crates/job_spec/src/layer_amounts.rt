//! Judging the amounts of a layer.

ghost use Rattle.std.specs.Prelude.{◌≡◌, ◌<◌, IfOk, length};
ghost use Rattle.std.specs.List.{All, IsDistinct};
ghost use Rattle.std.specs.Ordering.{int_eq};
ghost use Rattle.frame_range.specs.Printed.{printed};
ghost use Rattle.frame_range.specs.Sets.{set_of};
ghost use Rattle.farm_lines.specs.Spec.{layer_of, layer_with, layers_of, range_of};
ghost use Rattle.farm_types.specs.SpecLimits.{LayerKeepsLimits};
ghost use Rattle.job_spec.specs.SpecResults.{GivesSpec};

use crate::amounts::{read_layer_cores, within};
use crate::fault::SpecFault;
use farm_lines::LayerForm;
use farm_types::{
    Cores, Items, Kb, LEAST_MEMORY, LayerSpec, MOST_COMMAND, MOST_MEMORY, MOST_RANGE, MOST_TAGS,
    Text,
};
use frame_range::{FrameSet, RangeFault, parse_set};
use std::alloc::{AllocError, Global};

/// Layers, each with its amounts in order.
pub fn judge_layers(alloc: Global, forms: &[LayerForm]) -> Result<Items<LayerSpec>, SpecFault>
    ensures gives { GivesSpec result (layers_of forms.now) }
    ensures limits { IfOk result (All LayerKeepsLimits) }
    ensures count { IfOk result (λ layers. length layers ≡ length forms.now) }
{
    let mut judged = Items::new(alloc);
    for form in forms {
        judged.push(judge_layer(alloc, form)?)?;
    }
    Ok(judged)
}

// A layer's amounts in order: the length of its range's text, its range, its command's length, cores, memory, tags.
#[tactic(auto, unfolding(farm_lines::specs::Spec::layer_of))]
fn judge_layer(alloc: Global, form: &LayerForm) -> Result<LayerSpec, SpecFault>
    ensures gives { GivesSpec result (layer_of form.now) }
    ensures limits { IfOk result LayerKeepsLimits }
{
    within(
        alloc,
        "range",
        0,
        u128::from(MOST_RANGE),
        form.range.as_str().len() as u128,
    )?;
    let range = read_range(alloc, &form.name, &form.range)?;
    within(
        alloc,
        "command",
        1,
        u128::from(MOST_COMMAND),
        form.command.as_str().len() as u128,
    )?;
    let cores = read_layer_cores(alloc, "cores", form.cores.as_str())?;
    within(
        alloc,
        "memory",
        u128::from(LEAST_MEMORY),
        u128::from(MOST_MEMORY),
        u128::from(form.memory),
    )?;
    within(
        alloc,
        "tags",
        1,
        u128::from(MOST_TAGS),
        form.tags.len() as u128,
    )?;
    Ok(made_layer(alloc, form, &range, cores)?)
}

// The set that the text of a layer's range spells.
fn read_range(alloc: Global, layer: &Text, range: &Text) -> Result<FrameSet, SpecFault>
    ensures { GivesSpec result (range_of layer.now (set_of range.now)) }
{
    match parse_set(alloc, range.as_str()) {
        Ok(set) => Ok(set),
        Err(RangeFault::NoMemory) => Err(SpecFault::NoMemory),
        Err(fault) => Err(SpecFault::Range {
            layer: layer.copy(alloc)?,
            fault,
        }),
    }
}

// The layer of that form, with its range and cores.
fn made_layer(
    alloc: Global,
    form: &LayerForm,
    range: &FrameSet,
    cores: Cores,
) -> Result<LayerSpec, AllocError>
    ensures made { IfOk result (λ layer. layer ≡ layer_with form.now range.now cores) }
    ensures some { IfOk result (λ layer. 0 < length layer.numbers) }
    ensures distinct { IfOk result (λ layer. IsDistinct int_eq layer.numbers) }
{
    Ok(LayerSpec {
        name: form.name.copy(alloc)?,
        range: printed_text(alloc, range)?,
        numbers: Items::from_vec(Vec::from_slice(alloc, range.numbers())?),
        command: form.command.copy(alloc)?,
        cores,
        memory: Kb(form.memory),
        tags: form.tags.copy(alloc)?,
        limit: form.limit.copy(alloc)?,
    })
}

// The text that the set prints as.
fn printed_text(alloc: Global, range: &FrameSet) -> Result<Text, AllocError>
    ensures { IfOk result (λ text. text ≡ printed range.now) }
{
    let text = range.print(alloc)?;
    Text::from_str(alloc, text.as_str())
}
