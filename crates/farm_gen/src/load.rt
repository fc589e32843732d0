//! The farm of a load.

ghost use Rattle.std.specs.Prelude.{◌≡◌, IfOk};
ghost use Rattle.farm_gen.specs.Load.{IsLoad, load_alloc, load_boot, load_entries, load_show, load_sub, load_submit};

use crate::load_job::load_spec;
use farm_types::{Act, BootLine, Cores, Entry, Items, Kb, SubLine, Text};
use std::alloc::{AllocError, Global};

/// The entries that make the farm of a load of n frames a layer, from 1 to 5,000, at moment 0: hosts `h1` to `h4` of sixteen cores each, and a job of
/// two layers, of which each frame of the second waits for one of the first.
pub fn load_entries(alloc: Global, n: u32) -> Result<Items<Entry>, AllocError>
    requires { IsLoad n }
    ensures { IfOk result (λ entries. entries ≡ load_entries n) }
{
    let mut entries = Items::new(alloc);
    entries.push(show_entry(alloc)?)?;
    entries.push(alloc_entry(alloc)?)?;
    entries.push(sub_entry(alloc)?)?;
    entries.push(boot_entry(alloc, "h1", 1)?)?;
    entries.push(boot_entry(alloc, "h2", 2)?)?;
    entries.push(boot_entry(alloc, "h3", 3)?)?;
    entries.push(boot_entry(alloc, "h4", 4)?)?;
    entries.push(submit_entry(alloc, n)?)?;
    Ok(entries)
}

// The show.
fn show_entry(alloc: Global) -> Result<Entry, AllocError>
    ensures { IfOk result (λ entry. entry ≡ load_show) }
{
    let name = Text::from_str(alloc, "load")?;
    Ok(Entry {
        moment: 0,
        act: Act::Show { name },
    })
}

// The allocation.
fn alloc_entry(alloc: Global) -> Result<Entry, AllocError>
    ensures { IfOk result (λ entry. entry ≡ load_alloc) }
{
    let facility = Text::from_str(alloc, "farm")?;
    let tag = Text::from_str(alloc, "general")?;
    Ok(Entry {
        moment: 0,
        act: Act::Alloc { facility, tag },
    })
}

// The subscription of the show to the allocation.
fn sub_entry(alloc: Global) -> Result<Entry, AllocError>
    ensures { IfOk result (λ entry. entry ≡ load_sub) }
{
    let line = SubLine {
        show: Text::from_str(alloc, "load")?,
        alloc: Text::from_str(alloc, "farm.general")?,
        size: Cores(100000),
        burst: Cores(100000),
    };
    Ok(Entry {
        moment: 0,
        act: Act::Sub(line),
    })
}

// The boot of a host.
fn boot_entry(alloc: Global, host: &str, nonce: u64) -> Result<Entry, AllocError>
    ensures { IfOk result (λ entry. entry ≡ load_boot host.now nonce) }
{
    let line = BootLine {
        host: Text::from_str(alloc, host)?,
        nonce,
        alloc: Text::from_str(alloc, "farm.general")?,
        tags: Items::new(alloc),
        cores: Cores(1600),
        memory: Kb(67108864),
    };
    Ok(Entry {
        moment: 0,
        act: Act::Boot(line),
    })
}

// The job.
fn submit_entry(alloc: Global, n: u32) -> Result<Entry, AllocError>
    requires { IsLoad n }
    ensures { IfOk result (λ entry. entry ≡ load_submit n) }
{
    let spec = load_spec(alloc, n)?;
    Ok(Entry {
        moment: 0,
        act: Act::Submit(spec),
    })
}
