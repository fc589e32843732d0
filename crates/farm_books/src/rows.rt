//! The rows of the books, as the store has them.

ghost use Rattle.std.specs.Prelude.{◌≡◌, ◌≤◌, ◌++◌, length, map, OnOk};
ghost use Rattle.farm_types.specs.declared.limits.TheConstants.{MOST_ALLOCS, MOST_HOSTS, MOST_LIMITS, MOST_SHOWS, SLOT_LIMIT};
ghost use Rattle.farm_rows.specs.Rows.{is_unused, numbered, slot_rows};
ghost use Rattle.farm_rows.specs.declared.farm_row.FarmRow.TheVariants as row;
ghost use Rattle.farm_books.specs.Rows.{book_rows};

use crate::books::Books;
use farm_rows::{FarmRow, FrameRow};
use farm_types::{
    AllocNo, AllocRow, HostNo, HostRow, JobRow, LayerRow, LimitNo, LimitRow, ShowNo, ShowRow, Slot,
    SlotRow, SubRow,
};
use std::alloc::{AllocError, Global};

impl Books {
    /// Copies of the books' rows go behind the others, by kind, then number: shows, allocations, subscriptions, hosts, jobs, layers, and the slots
    /// that were ever used. Without the farm's own row, and those of depends and limits.
    pub fn push_rows(&self, alloc: Global, rows: &mut Vec<FarmRow>) -> Result<(), AllocError>
        ensures { OnOk result (rows.new.items ≡ rows.old.items ++ book_rows self.now.farm) }
    {
        push_shows(alloc, self.shows.rows(), rows)?;
        push_allocs(alloc, self.allocs.rows(), rows)?;
        push_subs(self.attempts.subs().rows(alloc)?, rows)?;
        push_hosts(alloc, self.hosts.rows(), rows)?;
        push_jobs(self.jobs.job_rows(alloc)?, rows)?;
        push_layers(self.jobs.layer_rows(alloc)?, rows)?;
        push_slots(self.jobs.slots(), rows)
    }

    /// Copies of the limits' rows go behind the others, by number.
    pub fn push_limits(&self, alloc: Global, rows: &mut Vec<FarmRow>) -> Result<(), AllocError>
        ensures { OnOk result (rows.new.items ≡ rows.old.items ++ numbered row.Limit 0 self.now.farm.limits) }
    {
        push_limit_rows(alloc, self.limits.rows(), rows)
    }
}

// The rows of these shows go behind the others.
fn push_shows(alloc: Global, shows: &[ShowRow], rows: &mut Vec<FarmRow>) -> Result<(), AllocError>
    requires { length shows.now ≤ MOST_SHOWS }
    ensures { OnOk result (rows.new.items ≡ rows.old.items ++ numbered row.Show 0 shows.now) }
{
    for (place, show) in shows.iter().enumerate() {
        let row = show.copy(alloc)?;
        rows.push(FarmRow::Show {
            show: ShowNo(place as u16),
            row,
        })?;
    }
    Ok(())
}

// The rows of these allocations go behind the others.
fn push_allocs(
    alloc: Global,
    allocs: &[AllocRow],
    rows: &mut Vec<FarmRow>,
) -> Result<(), AllocError>
    requires { length allocs.now ≤ MOST_ALLOCS }
    ensures { OnOk result (rows.new.items ≡ rows.old.items ++ numbered row.Alloc 0 allocs.now) }
{
    for (place, allocation) in allocs.iter().enumerate() {
        let row = allocation.copy(alloc)?;
        rows.push(FarmRow::Alloc {
            alloc: AllocNo(place as u16),
            row,
        })?;
    }
    Ok(())
}

// The rows of these subscriptions go behind the others.
fn push_subs(subs: Vec<SubRow>, rows: &mut Vec<FarmRow>) -> Result<(), AllocError>
    ensures { OnOk result (rows.new.items ≡ rows.old.items ++ map row.Sub subs.items) }
{
    for sub in subs {
        rows.push(FarmRow::Sub(sub))?;
    }
    Ok(())
}

// The rows of these limits go behind the others.
fn push_limit_rows(
    alloc: Global,
    limits: &[LimitRow],
    rows: &mut Vec<FarmRow>,
) -> Result<(), AllocError>
    requires { length limits.now ≤ MOST_LIMITS }
    ensures { OnOk result (rows.new.items ≡ rows.old.items ++ numbered row.Limit 0 limits.now) }
{
    for (place, limit) in limits.iter().enumerate() {
        let row = limit.copy(alloc)?;
        rows.push(FarmRow::Limit {
            limit: LimitNo(place as u8),
            row,
        })?;
    }
    Ok(())
}

// The rows of these hosts go behind the others.
fn push_hosts(alloc: Global, hosts: &[HostRow], rows: &mut Vec<FarmRow>) -> Result<(), AllocError>
    requires { length hosts.now ≤ MOST_HOSTS }
    ensures { OnOk result (rows.new.items ≡ rows.old.items ++ numbered row.Host 0 hosts.now) }
{
    for (place, host) in hosts.iter().enumerate() {
        let row = host.copy(alloc)?;
        rows.push(FarmRow::Host {
            host: HostNo(place as u16),
            row,
        })?;
    }
    Ok(())
}

// The rows of these jobs go behind the others.
fn push_jobs(jobs: Vec<JobRow>, rows: &mut Vec<FarmRow>) -> Result<(), AllocError>
    ensures { OnOk result (rows.new.items ≡ rows.old.items ++ map row.Job jobs.items) }
{
    for job in jobs {
        rows.push(FarmRow::Job(job))?;
    }
    Ok(())
}

// The rows of these layers go behind the others.
fn push_layers(layers: Vec<LayerRow>, rows: &mut Vec<FarmRow>) -> Result<(), AllocError>
    ensures { OnOk result (rows.new.items ≡ rows.old.items ++ map row.Layer layers.items) }
{
    for layer in layers {
        rows.push(FarmRow::Layer(layer))?;
    }
    Ok(())
}

// The rows of those of these slots that were ever used go behind the others.
fn push_slots(slots: &[SlotRow], rows: &mut Vec<FarmRow>) -> Result<(), AllocError>
    requires { length slots.now ≤ SLOT_LIMIT }
    ensures { OnOk result (rows.new.items ≡ rows.old.items ++ slot_rows 0 slots.now) }
{
    for (place, slot) in slots.iter().enumerate() {
        if is_unused(slot) {
            continue;
        }
        let row = FrameRow::of_slot(Slot(place as u32), slot);
        rows.push(FarmRow::Frame(row))?;
    }
    Ok(())
}

// Whether the slot is free at version 0.
fn is_unused(slot: &SlotRow) -> bool
    ensures { result ≡ is_unused slot.now }
{
    slot.frame.is_none() && slot.version.0 == 0
}
