//! The request of a job's submit.

ghost use Rattle.std.specs.Prelude.{◌≡◌, ◌∷◌, IfOk, OnOk, map, true};
ghost use Rattle.json.specs.Token.{key};
ghost use Rattle.serde_json.specs.Data.{array};
ghost use Rattle.serde_json.specs.View.{items_of};
ghost use Rattle.farm_lines.specs.RequestText.{cores_text, layer_data, own_depend_data, spec_data, submit_line};
ghost use Rattle.object_writer.specs.Tokens.{added, tokens_of};
ghost use Rattle.object_writer.specs.Written.{is_plain};

use crate::requests::members::{write_frame_if, write_text_if, write_texts};
use farm_types::{Cores, DependSpec, JobSpec, LayerSpec, Text};
use object_writer::ObjectWriter;
use state_names::kind_word;
use std::alloc::{AllocError, Global};

/// That a job be submitted.
#[tactic(auto, unfolding(farm_lines::specs::RequestText::submit_line))]
pub fn write_submit(alloc: Global, out: &mut ObjectWriter, spec: &JobSpec) -> Result<(), AllocError>
    ensures { OnOk result (out.new ≡ added out.old (tokens_of (submit_line spec.now))) }
{
    out.begin_object()?;
    out.key("job")?;
    write_spec(alloc, out, spec)?;
    out.text("op", "submit")?;
    out.end_object()
}

// The spec, as an object.
fn write_spec(alloc: Global, out: &mut ObjectWriter, spec: &JobSpec) -> Result<(), AllocError>
    ensures { OnOk result (out.new ≡ added out.old (tokens_of (spec_data spec.now))) }
{
    out.begin_object()?;
    out.truth("auto_eat", spec.auto_eat)?;
    write_depends(out, "depends", spec.depends.as_slice())?;
    out.text("facility", spec.facility.as_str())?;
    write_layers(alloc, out, "layers", spec.layers.as_slice())?;
    out.whole("max_retries", u64::from(spec.max_retries))?;
    out.text("name", spec.name.as_str())?;
    out.truth("paused", spec.paused)?;
    out.whole("priority", u64::from(spec.priority))?;
    out.text("shot", spec.shot.as_str())?;
    out.text("show", spec.show.as_str())?;
    out.text("user", spec.user.as_str())?;
    out.end_object()
}

fn write_layers(
    alloc: Global,
    out: &mut ObjectWriter,
    name: &str,
    layers: &[LayerSpec],
) -> Result<(), AllocError>
    requires { is_plain name.now ≡ true }
    ensures { OnOk result (out.new ≡ added out.old (key name.now ∷ tokens_of (array (items_of (map layer_data layers.now))))) }
{
    out.begin_list(name)?;
    for layer in layers {
        write_layer(alloc, out, layer)?;
    }
    out.end_list()
}

// A layer: memory in KB, its cores as a text.
#[tactic(auto, unfolding(farm_lines::specs::RequestText::layer_data))]
fn write_layer(alloc: Global, out: &mut ObjectWriter, layer: &LayerSpec) -> Result<(), AllocError>
    ensures { OnOk result (out.new ≡ added out.old (tokens_of (layer_data layer.now))) }
{
    let cores = cores_text(alloc, layer.cores)?;
    out.begin_object()?;
    out.text("command", layer.command.as_str())?;
    out.text("cores", cores.as_str())?;
    out.text("limit", layer.limit.as_str())?;
    out.memory("memory", layer.memory)?;
    out.text("name", layer.name.as_str())?;
    out.text("range", layer.range.as_str())?;
    write_texts(out, "tags", layer.tags.as_slice())?;
    out.end_object()
}

// So many whole cores, a point, and the hundredths in two digits.
#[tactic(auto, using(std::proofs::lemmas::Fmt::decimal_digit))]
fn cores_text(alloc: Global, cores: Cores) -> Result<Text, AllocError>
    ensures { IfOk result (λ text. text ≡ cores_text cores) }
{
    let whole = cores.0 / 100;
    let tens = cores.0 % 100 / 10;
    let ones = cores.0 % 10;
    Ok(Text::from_string(format!(in alloc; "{whole}.{tens}{ones}")?))
}

fn write_depends(
    out: &mut ObjectWriter,
    name: &str,
    depends: &[DependSpec],
) -> Result<(), AllocError>
    requires { is_plain name.now ≡ true }
    ensures { OnOk result (out.new ≡ added out.old (key name.now ∷ tokens_of (array (items_of (map own_depend_data depends.now))))) }
{
    out.begin_list(name)?;
    for depend in depends {
        write_own_depend(out, depend)?;
    }
    out.end_list()
}

// A depend of the job's own spec, in which the waiting job isn't named.
fn write_own_depend(out: &mut ObjectWriter, spec: &DependSpec) -> Result<(), AllocError>
    ensures { OnOk result (out.new ≡ added out.old (tokens_of (own_depend_data spec.now))) }
{
    out.begin_object()?;
    out.truth("any", spec.any)?;
    write_frame_if(out, "frame", spec.waiter.frame)?;
    out.text("kind", kind_word(spec.kind))?;
    write_text_if(out, "layer", &spec.waiter.layer)?;
    write_frame_if(out, "on_frame", spec.target.frame)?;
    out.text("on_job", spec.target.job.as_str())?;
    write_text_if(out, "on_layer", &spec.target.layer)?;
    out.end_object()
}
