//! The job of a load.

ghost use Rattle.std.specs.Prelude.{◌≡◌, IfOk};
ghost use Rattle.farm_gen.specs.Load.{IsLoad, layer_place, load_depend, load_layer, load_name, load_range, load_spec, numbers_from};

use farm_types::{Cores, DependKind, DependSpec, Items, JobSpec, Kb, LayerSpec, Place, Text};
use std::alloc::{AllocError, Global};

/// The job of a load of n frames a layer, as it is submitted.
pub(crate) fn load_spec(alloc: Global, n: u32) -> Result<JobSpec, AllocError>
    requires { IsLoad n }
    ensures { IfOk result (λ job. job ≡ load_spec n) }
{
    Ok(JobSpec {
        name: load_name(alloc, n)?,
        show: Text::from_str(alloc, "load")?,
        facility: Text::from_str(alloc, "farm")?,
        shot: Text::from_str(alloc, "")?,
        user: Text::from_str(alloc, "")?,
        priority: 100,
        max_retries: 3,
        auto_eat: false,
        paused: false,
        layers: Items::from_vec(Vec::from_array(
            alloc,
            [load_layer(alloc, n, "a")?, load_layer(alloc, n, "b")?],
        )?),
        depends: Items::from_vec(Vec::from_array(alloc, [load_depend(alloc, n)?])?),
    })
}

// The job's name.
fn load_name(alloc: Global, n: u32) -> Result<Text, AllocError>
    ensures { IfOk result (λ name. name ≡ load_name n) }
{
    Ok(Text::from_string(format!(in alloc; "load-{n}")?))
}

// One of its layers.
fn load_layer(alloc: Global, n: u32, name: &str) -> Result<LayerSpec, AllocError>
    requires { IsLoad n }
    ensures { IfOk result (λ layer. layer ≡ load_layer n name.now) }
{
    Ok(LayerSpec {
        name: Text::from_str(alloc, name)?,
        range: Text::from_string(format!(in alloc; "1-{n}")?),
        numbers: numbers_to(alloc, n)?,
        command: Text::from_str(alloc, "true")?,
        cores: Cores(100),
        memory: Kb(3355443),
        tags: Items::from_vec(Vec::from_array(alloc, [Text::from_str(alloc, "general")?])?),
        limit: Text::from_str(alloc, "")?,
    })
}

// The numbers of a layer's frames.
fn numbers_to(alloc: Global, n: u32) -> Result<Items<i32>, AllocError>
    requires { IsLoad n }
    ensures { IfOk result (λ numbers. numbers ≡ numbers_from 1 n) }
{
    let mut numbers = Items::new(alloc);
    for number in 1..=n {
        numbers.push(number as i32)?;
    }
    Ok(numbers)
}

// The depend of its second layer on its first.
fn load_depend(alloc: Global, n: u32) -> Result<DependSpec, AllocError>
    ensures { IfOk result (λ depend. depend ≡ load_depend n) }
{
    Ok(DependSpec {
        kind: DependKind::FrameByFrame,
        any: false,
        waiter: layer_place(alloc, n, "b")?,
        target: layer_place(alloc, n, "a")?,
    })
}

// All frames of one of its layers.
fn layer_place(alloc: Global, n: u32, layer: &str) -> Result<Place, AllocError>
    ensures { IfOk result (λ place. place ≡ layer_place n layer.now) }
{
    Ok(Place {
        job: load_name(alloc, n)?,
        layer: Some(Text::from_str(alloc, layer)?),
        frame: None,
    })
}
