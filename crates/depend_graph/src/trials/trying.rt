//! What would become of the graph if frames were done, or a depend was dropped: counts are laid over its own, and those who would be freed are listed.

ghost use Rattle.std.specs.Prelude.{◌≡◌, ◌++◌, ◌<◌, ◌≤◌, [], if◌then◌else◌, length, nat_eq, IfOk, OnOk};
ghost use Rattle.std.specs.List.{IsDistinct};
ghost use Rattle.farm_types.specs.declared.limits.TheConstants.{MOST_GROUPS, SLOT_LIMIT};
ghost use Rattle.depend_edges.specs.Listed.{OfGroup};
ghost use Rattle.depend_edges.specs.Places.{AtEdge, AtTarget, IsEdgeAt};
ghost use Rattle.depend_edges.specs.Ways.{IsLast, KeepsNext, KeepsWays, edge_lists, is_any};
ghost use Rattle.depend_graph.specs.Inside.{KeepsDepends};
ghost use Rattle.depend_graph.specs.Trial.{waiters_left};
ghost use Rattle.depend_graph.specs.Tries.{Hits, MeetsBy, TriesAll, TriesDone};

use crate::trials::over::{key_of, lower};
use crate::trials::trial::Trial;
use depend_edges::{EdgeAt, Listed, edge_in, first_of};
use farm_types::Slot;
use std::alloc::{AllocError, Global};

/// What is known once these frames would be done, one after the other.
pub(crate) fn try_all(
    alloc: Global,
    first: &[Option<EdgeAt>],
    depends: &[Listed],
    done: &[Slot],
) -> Result<Trial, AllocError>
    requires differ { IsDistinct nat_eq done.now }
    requires first_counted { length first.now ≡ SLOT_LIMIT }
    requires ways { KeepsWays first.now (edge_lists depends.now) }
    requires depends { KeepsDepends depends.now }
    ensures { IfOk result (TriesAll depends.now done.now) }
{
    let mut trial = Trial::new(alloc);
    for slot in done {
        try_done(first, depends, &mut trial, *slot)?;
    }
    Ok(trial)
}

// The frame of the slot would be done too.
fn try_done(
    first: &[Option<EdgeAt>],
    depends: &[Listed],
    trial: &mut Trial,
    slot: Slot,
) -> Result<(), AllocError>
    requires first_counted { length first.now ≡ SLOT_LIMIT }
    requires ways { KeepsWays first.now (edge_lists depends.now) }
    requires depends { KeepsDepends depends.now }
    ensures { OnOk result (TriesDone depends.now slot trial.old trial.new) }
{
    if slot.0 as usize >= first.len() {
        return Ok(());
    }
    try_way(depends, first_of(first, slot), trial, slot)
}

// Along the slot's way each group would lack one fewer, and those that would lack none be met.
fn try_way(
    depends: &[Listed],
    first: Option<EdgeAt>,
    trial: &mut Trial,
    slot: Slot,
) -> Result<(), AllocError>
    requires slot { slot < SLOT_LIMIT }
    requires first { IsLast (edge_lists depends.now) slot is_any first }
    requires next { KeepsNext (edge_lists depends.now) }
    requires depends { KeepsDepends depends.now }
    ensures { OnOk result (TriesDone depends.now slot trial.old trial.new) }
{
    let mut next = first;
    while let Some(at) = next {
        next = try_edge(depends, trial, at)?;
    }
    Ok(())
}

// The target of an edge would be done. The result is where the way goes on.
fn try_edge(depends: &[Listed], trial: &mut Trial, at: EdgeAt) -> Result<Option<EdgeAt>, AllocError>
    requires there { IsEdgeAt depends.now at }
    ensures next { IfOk result (λ next. AtEdge depends.now at (λ d e. next ≡ e.next)) }
    ensures hit { OnOk result (AtTarget depends.now at (λ d e g c. Hits at.depend e.group g c trial.old trial.new)) }
    ensures met { OnOk result (AtTarget depends.now at (λ d e g c. MeetsBy at.depend e.group d g c trial.old trial.new)) }
{
    let edge = edge_in(depends, at);
    hit(&depends[at.depend as usize], trial, at.depend, edge.group)?;
    Ok(edge.next)
}

// One target of the group would be done, and those who wait in it freed where it would be met by that.
fn hit(listed: &Listed, trial: &mut Trial, place: u32, group: u32) -> Result<(), AllocError>
    requires groups { group < length listed.now.groups }
    requires counts { group < length listed.now.counts }
    ensures hit { OnOk result (OfGroup listed.now group (λ g c. Hits place group g c trial.old trial.new)) }
    ensures met { OnOk result (OfGroup listed.now group (λ g c. MeetsBy place group listed.now g c trial.old trial.new)) }
{
    let lacked = lower(
        &mut trial.lacking,
        key_of(place, group),
        listed.undone(group),
    )?;
    if listed.becomes_due(group, lacked) {
        trial.freed.extend_from_slice(listed.waiters(group))?;
        trial.meeting.meet(listed, place, group)?;
    }
    Ok(())
}

/// All groups of the depend would be met.
pub(crate) fn free_left(listed: &Listed, freed: &mut Vec<Slot>) -> Result<(), AllocError>
    requires counted { length listed.now.counts ≡ length listed.now.groups }
    requires within { length listed.now.groups ≤ MOST_GROUPS }
    ensures { OnOk result (freed.new.items ≡ freed.old.items ++ waiters_left listed.now.groups listed.now.counts) }
{
    for group in 0..listed.len() as u32 {
        free_group(listed, freed, group)?;
    }
    Ok(())
}

// Those who wait in the group would be freed, if it isn't met.
fn free_group(listed: &Listed, freed: &mut Vec<Slot>, group: u32) -> Result<(), AllocError>
    requires groups { group < length listed.now.groups }
    requires counts { group < length listed.now.counts }
    ensures { OnOk result (OfGroup listed.now group (λ g c. freed.new.items ≡ freed.old.items ++ (if c.met then [] else g.waiters))) }
{
    if listed.is_met(group) {
        return Ok(());
    }
    freed.extend_from_slice(listed.waiters(group))?;
    Ok(())
}
