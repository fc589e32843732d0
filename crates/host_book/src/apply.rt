//! What a boot changes.

ghost use Rattle.std.specs.Prelude.{◌≡◌, ◌<◌, ◌≤◌, ◌+◌, ◌++◌, ◌∷◌, [], false, length, slice_get, None, Some, Ok};
ghost use Rattle.std.specs.List.{list_any};
ghost use Rattle.std.specs.String.{string_eq};
ghost use Rattle.std.specs.Vec.{vec_capacity};
ghost use Rattle.indexmap.specs.IndexSet.{spare};
ghost use Rattle.farm_types.specs.Farm.{changed_at, host_from};
ghost use Rattle.farm_types.specs.Hosts.{booted, booted_row, new_host};
ghost use Rattle.host_book.specs.Book.{alloc_of, number_of, plan_of};
ghost use Rattle.host_book.specs.Inside.{CanBoot};
ghost use Rattle.farm_types.specs.declared.limits.TheConstants.{MOST_HOSTS};

use crate::boots::BootPlan;
use crate::check::is_same_life;
use crate::hosts::Hosts;
use crate::spare::HostSpare;
use farm_types::{AllocNo, BootLine, HostNo, HostRow, HostState, LockState};
use indexmap::IndexSet;

impl Hosts {
    /// Boots a host as planned at the moment, in the memory that was reserved for it, and gives its number. It takes no memory.
    pub fn apply_boot(&mut self, reserved: HostSpare, plan: BootPlan, now: u64) -> HostNo
        requires { plan_of self.old reserved (alloc_of plan) ≡ Ok plan }
        ensures book { self.new ≡ booted self.old reserved (alloc_of plan) now }
        ensures number { result ≡ number_of self.old reserved }
    {
        match self.find(reserved.line.host.as_str()) {
            None => self.add(reserved, alloc_of(plan), now),
            Some(host) => {
                self.boot_again(host, reserved, now);
                host
            }
        }
    }

    // Adds a host of a new name, behind the others.
    fn add(&mut self, reserved: HostSpare, alloc: AllocNo, now: u64) -> HostNo
        requires new { host_from 0 reserved.host self.old ≡ None }
        requires few { length self.old < MOST_HOSTS }
        ensures book { self.new ≡ self.old ++ new_host reserved alloc now ∷ [] }
        ensures number { result ≡ length self.old }
    {
        let HostSpare { line, name } = reserved;
        let host = HostNo(self.rows.len() as u16);
        add_name(&mut self.names, name);
        self.watched.push_reserved(now);
        self.oldest = self.oldest.min(now);
        self.rows.push_reserved(new_host(line, alloc, now));
        host
    }

    // Boots a host that is there.
    fn boot_again(&mut self, host: HostNo, reserved: HostSpare, now: u64)
        requires there { host < length self.old }
        requires can { CanBoot reserved (slice_get self.old host) }
        ensures { self.new ≡ changed_at self.old host (booted_row reserved now) }
    {
        let HostSpare { line, name: _name } = reserved;
        boot_at(&mut self.rows, host.0 as usize, line, now);
        self.watched[host.0 as usize] = now;
        self.oldest = self.oldest.min(now);
    }
}

// The allocation of a planned boot.
fn alloc_of(plan: BootPlan) -> AllocNo
    ensures { result ≡ alloc_of plan }
{
    match plan {
        BootPlan::New { alloc, .. } => alloc,
        BootPlan::Same { alloc, .. } => alloc,
        BootPlan::Again { alloc, .. } => alloc,
    }
}

/// A name that isn't there goes last.
pub(crate) fn add_name(names: &mut IndexSet<String>, name: String)
    requires new { list_any (λ k. string_eq name k) names.old.keys ≡ false }
    requires capacity { 0 < spare names.old }
    ensures keys { names.new.keys ≡ names.old.keys ++ name ∷ [] }
    ensures capacity { spare names.old ≤ spare names.new + 1 }
{
    names.insert(name).unwrap();
}

// A host that boots for the first time.
pub(crate) fn new_host(line: BootLine, alloc: AllocNo, now: u64) -> HostRow
    ensures { result ≡ new_host line alloc now }
{
    HostRow {
        name: line.host,
        alloc,
        tags: line.tags,
        cores: line.cores,
        memory: line.memory,
        boot: 1,
        nonce: line.nonce,
        seq: 0,
        heard: now,
        lock: LockState::Unlocked,
        state: HostState::Up,
    }
}

// Boots the host at a place.
fn boot_at(rows: &mut Vec<HostRow>, place: usize, line: BootLine, now: u64)
    requires there { place < length rows.old.items }
    requires can { CanBoot line (slice_get rows.old.items place) }
    ensures items { rows.new.items ≡ changed_at rows.old.items place (booted_row line now) }
    ensures capacity { vec_capacity rows.new ≡ vec_capacity rows.old }
{
    boot_row(&mut rows[place], line, now);
}

// Boots a host: a new life has the tags and amounts of the boot, and the next boot number.
fn boot_row(row: &mut HostRow, line: BootLine, now: u64)
    requires { CanBoot line (Some row.old) }
    ensures { row.new ≡ booted_row line now row.old }
{
    if !is_same_life(row, &line) {
        row.tags = line.tags;
        row.cores = line.cores;
        row.memory = line.memory;
        row.boot += 1;
        row.nonce = line.nonce;
        row.seq = 0;
    }
    row.heard = now;
    row.state = HostState::Up;
}
