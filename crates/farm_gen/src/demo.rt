//! The farm of the demonstration.

ghost use Rattle.std.specs.Prelude.{◌≡◌, IfOk};
ghost use Rattle.farm_law.specs.DemoRun.{demo_alloc, demo_boot, demo_entries, demo_layer_spec, demo_numbers, demo_show, demo_spec, demo_sub, demo_submit};

use farm_types::{Act, BootLine, Cores, Entry, Items, JobSpec, Kb, LayerSpec, SubLine, Text};
use std::alloc::{AllocError, Global};

/// The entries that make the farm of the demonstration at a moment (seconds): host `h1` of eight cores, and the job `demo-job` of ten frames of one
/// core each, on a subscription with a burst of four cores.
pub fn demo_entries(alloc: Global, moment: u64) -> Result<Items<Entry>, AllocError>
    ensures { IfOk result (λ entries. entries ≡ demo_entries moment) }
{
    let mut entries = Items::new(alloc);
    entries.push(show_entry(alloc, moment)?)?;
    entries.push(alloc_entry(alloc, moment)?)?;
    entries.push(sub_entry(alloc, moment)?)?;
    entries.push(boot_entry(alloc, moment)?)?;
    entries.push(submit_entry(alloc, moment)?)?;
    Ok(entries)
}

// The show.
fn show_entry(alloc: Global, moment: u64) -> Result<Entry, AllocError>
    ensures { IfOk result (λ entry. entry ≡ demo_show moment) }
{
    let name = Text::from_str(alloc, "demo")?;
    Ok(Entry {
        moment,
        act: Act::Show { name },
    })
}

// The allocation.
fn alloc_entry(alloc: Global, moment: u64) -> Result<Entry, AllocError>
    ensures { IfOk result (λ entry. entry ≡ demo_alloc moment) }
{
    let facility = Text::from_str(alloc, "farm")?;
    let tag = Text::from_str(alloc, "general")?;
    Ok(Entry {
        moment,
        act: Act::Alloc { facility, tag },
    })
}

// The subscription of the show to the allocation.
fn sub_entry(alloc: Global, moment: u64) -> Result<Entry, AllocError>
    ensures { IfOk result (λ entry. entry ≡ demo_sub moment) }
{
    let line = SubLine {
        show: Text::from_str(alloc, "demo")?,
        alloc: Text::from_str(alloc, "farm.general")?,
        size: Cores(400),
        burst: Cores(400),
    };
    Ok(Entry {
        moment,
        act: Act::Sub(line),
    })
}

// The boot of the host.
fn boot_entry(alloc: Global, moment: u64) -> Result<Entry, AllocError>
    ensures { IfOk result (λ entry. entry ≡ demo_boot moment) }
{
    let line = BootLine {
        host: Text::from_str(alloc, "h1")?,
        nonce: 1,
        alloc: Text::from_str(alloc, "farm.general")?,
        tags: Items::new(alloc),
        cores: Cores(800),
        memory: Kb(33554432),
    };
    Ok(Entry {
        moment,
        act: Act::Boot(line),
    })
}

// The job.
fn submit_entry(alloc: Global, moment: u64) -> Result<Entry, AllocError>
    ensures { IfOk result (λ entry. entry ≡ demo_submit moment) }
{
    let spec = spec_of(alloc)?;
    Ok(Entry {
        moment,
        act: Act::Submit(spec),
    })
}

// The job as it is submitted.
fn spec_of(alloc: Global) -> Result<JobSpec, AllocError>
    ensures { IfOk result (λ job. job ≡ demo_spec) }
{
    Ok(JobSpec {
        name: Text::from_str(alloc, "demo-job")?,
        show: Text::from_str(alloc, "demo")?,
        facility: Text::from_str(alloc, "farm")?,
        shot: Text::from_str(alloc, "")?,
        user: Text::from_str(alloc, "")?,
        priority: 100,
        max_retries: 3,
        auto_eat: false,
        paused: false,
        layers: Items::from_vec(Vec::from_array(alloc, [layer_of(alloc)?])?),
        depends: Items::new(alloc),
    })
}

// The job's layer.
fn layer_of(alloc: Global) -> Result<LayerSpec, AllocError>
    ensures { IfOk result (λ layer. layer ≡ demo_layer_spec) }
{
    Ok(LayerSpec {
        name: Text::from_str(alloc, "render")?,
        range: Text::from_str(alloc, "1-10")?,
        numbers: numbers_of(alloc)?,
        command: Text::from_str(alloc, "echo #IFRAME#")?,
        cores: Cores(100),
        memory: Kb(3355443),
        tags: Items::from_vec(Vec::from_array(alloc, [Text::from_str(alloc, "general")?])?),
        limit: Text::from_str(alloc, "")?,
    })
}

// The numbers of the layer's frames.
fn numbers_of(alloc: Global) -> Result<Items<i32>, AllocError>
    ensures { IfOk result (λ numbers. numbers ≡ demo_numbers) }
{
    Ok(Items::from_vec(Vec::from_array(alloc, [1, 2, 3, 4, 5, 6, 7, 8, 9, 10])?))
}
