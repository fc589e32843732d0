//! The rows of lists: their fields in order, and no others.

ghost use Rattle.cue_json.specs.View.{members_view};
ghost use Rattle.cue_json.specs.Fields.{Gives, others_at};
ghost use Rattle.farm_lines.specs.ReplyRows.{count_at, depend_row_at, frame_row_at, host_row_at, job_row_at, layer_row_at, limit_row_at, name_row_at, proc_row_at, row_at, sub_row_at};
ghost use Rattle.farm_lines.specs.RowKinds.{row_keys};

use cue_json::{FieldFault, ItemReader, Map};
use farm_lines::{
    ListRow, MOST_BOOKED, RowKind, ShownDepend, ShownFrame, ShownHost, ShownJob, ShownLayer,
    ShownLimit, ShownProc, ShownSub, read_name, read_name_or_empty, read_text, read_whole,
};
use farm_types::{
    Cores, DependNo, Kb, LAST_BOOT, LAST_DEPEND, LAST_SLOT, LAST_VERSION, LEAST_CORES,
    LEAST_MEMORY, MOST_BURST, MOST_CORES, MOST_FRAMES, MOST_MEMORY, MOST_PRIORITY, MOST_RETRIES,
    MOST_RUNNING, SLOT_LIMIT, Slot, Version,
};
use state_names::read_word;
use std::alloc::Global;

/// Reads a row with those keys.
#[derive(Debug, Drop)]
pub struct RowReader {
    pub keys: RowKind,
}

impl ItemReader for RowReader {
    type Item = ListRow;

    ghost reads = { λ reader. row_at reader.keys };

    fn read(&self, alloc: Global, object: &Map) -> Result<ListRow, FieldFault> {
        match self.keys {
            RowKind::Name => read_name_row(alloc, object),
            RowKind::Sub => read_sub(alloc, object),
            RowKind::Limit => read_limit(alloc, object),
            RowKind::Host => read_host(alloc, object),
            RowKind::Job => read_job(alloc, object),
            RowKind::Layer => read_layer(alloc, object),
            RowKind::Frame => read_frame(alloc, object),
            RowKind::Depend => read_depend(alloc, object),
            RowKind::Proc => read_proc(alloc, object),
        }
    }
}

// Nothing where the object has no keys but those of that kind.
fn no_others(alloc: Global, object: &Map, kind: RowKind) -> Result<(), FieldFault>
    ensures { Gives (λ none. none) result (others_at (row_keys kind) (members_view object.now.items)) }
{
    cue_json::no_others(alloc, object, kind.keys())
}

#[tactic(auto, unfolding(farm_lines::specs::ReplyRows::name_row_at))]
fn read_name_row(alloc: Global, object: &Map) -> Result<ListRow, FieldFault>
    ensures { Gives (λ row. row) result (name_row_at (members_view object.now.items)) }
{
    let name = read_name(alloc, object, "name")?;
    no_others(alloc, object, RowKind::Name)?;
    Ok(ListRow::Name { name })
}

#[tactic(auto, unfolding(farm_lines::specs::ReplyRows::sub_row_at))]
fn read_sub(alloc: Global, object: &Map) -> Result<ListRow, FieldFault>
    ensures { Gives (λ row. row) result (sub_row_at (members_view object.now.items)) }
{
    let allocation = read_name(alloc, object, "alloc")?;
    let booked = read_whole(alloc, object, "booked", 0, MOST_BOOKED)?;
    let burst = read_whole(alloc, object, "burst", 0, MOST_BURST)?;
    let show = read_name(alloc, object, "show")?;
    let size = read_whole(alloc, object, "size", 0, MOST_BURST)?;
    no_others(alloc, object, RowKind::Sub)?;
    Ok(ListRow::Sub(ShownSub {
        alloc: allocation,
        booked: Cores(booked),
        burst: Cores(burst),
        show,
        size: Cores(size),
    }))
}

#[tactic(auto, unfolding(farm_lines::specs::ReplyRows::limit_row_at))]
fn read_limit(alloc: Global, object: &Map) -> Result<ListRow, FieldFault>
    ensures { Gives (λ row. row) result (limit_row_at (members_view object.now.items)) }
{
    let most = read_whole(alloc, object, "most", 0, MOST_RUNNING)?;
    let name = read_name(alloc, object, "name")?;
    let running = read_whole(alloc, object, "running", 0, SLOT_LIMIT)?;
    no_others(alloc, object, RowKind::Limit)?;
    Ok(ListRow::Limit(ShownLimit {
        most,
        name,
        running,
    }))
}

#[tactic(auto, unfolding(farm_lines::specs::ReplyRows::host_row_at))]
fn read_host(alloc: Global, object: &Map) -> Result<ListRow, FieldFault>
    ensures { Gives (λ row. row) result (host_row_at (members_view object.now.items)) }
{
    let allocation = read_name(alloc, object, "alloc")?;
    let boot = read_whole(alloc, object, "boot", 1, LAST_BOOT)?;
    let cores = read_whole(alloc, object, "cores", LEAST_CORES, MOST_CORES)?;
    let heard = cue_json::whole(alloc, object, "heard", 0, u64::MAX)?;
    let lock = read_word(alloc, object, "lock")?;
    let memory = cue_json::whole(alloc, object, "memory", LEAST_MEMORY, MOST_MEMORY)?;
    let name = read_name(alloc, object, "name")?;
    let state = read_word(alloc, object, "state")?;
    let used_cores = read_whole(alloc, object, "used_cores", 0, MOST_CORES)?;
    let used_memory = cue_json::whole(alloc, object, "used_memory", 0, MOST_MEMORY)?;
    no_others(alloc, object, RowKind::Host)?;
    Ok(ListRow::Host(ShownHost {
        alloc: allocation,
        boot,
        cores: Cores(cores),
        heard,
        lock,
        memory: Kb(memory),
        name,
        state,
        used_cores: Cores(used_cores),
        used_memory: Kb(used_memory),
    }))
}

// How many frames of a job or a layer are in a state.
fn read_count(alloc: Global, object: &Map, field: &str) -> Result<u32, FieldFault>
    ensures { Gives (λ count. count) result (count_at field.now (members_view object.now.items)) }
{
    read_whole(alloc, object, field, 0, MOST_FRAMES)
}

#[tactic(auto, unfolding(farm_lines::specs::ReplyRows::job_row_at))]
fn read_job(alloc: Global, object: &Map) -> Result<ListRow, FieldFault>
    ensures { Gives (λ row. row) result (job_row_at (members_view object.now.items)) }
{
    let dead = read_count(alloc, object, "dead")?;
    let depend = read_count(alloc, object, "depend")?;
    let eaten = read_count(alloc, object, "eaten")?;
    let name = read_name(alloc, object, "name")?;
    let paused = cue_json::flag(alloc, object, "paused")?;
    let priority = read_whole(alloc, object, "priority", 1, MOST_PRIORITY)?;
    let running = read_count(alloc, object, "running")?;
    let show = read_name(alloc, object, "show")?;
    let state = read_word(alloc, object, "state")?;
    let succeeded = read_count(alloc, object, "succeeded")?;
    let waiting = read_count(alloc, object, "waiting")?;
    no_others(alloc, object, RowKind::Job)?;
    Ok(ListRow::Job(ShownJob {
        dead,
        depend,
        eaten,
        name,
        paused,
        priority,
        running,
        show,
        state,
        succeeded,
        waiting,
    }))
}

#[tactic(auto, unfolding(farm_lines::specs::ReplyRows::layer_row_at))]
fn read_layer(alloc: Global, object: &Map) -> Result<ListRow, FieldFault>
    ensures { Gives (λ row. row) result (layer_row_at (members_view object.now.items)) }
{
    let cores = read_whole(alloc, object, "cores", LEAST_CORES, MOST_CORES)?;
    let dead = read_count(alloc, object, "dead")?;
    let depend = read_count(alloc, object, "depend")?;
    let eaten = read_count(alloc, object, "eaten")?;
    let limit = read_name_or_empty(alloc, object, "limit")?;
    let memory = cue_json::whole(alloc, object, "memory", LEAST_MEMORY, MOST_MEMORY)?;
    let name = read_name(alloc, object, "name")?;
    let range = read_text(alloc, object, "range")?;
    let running = read_count(alloc, object, "running")?;
    let succeeded = read_count(alloc, object, "succeeded")?;
    let waiting = read_count(alloc, object, "waiting")?;
    no_others(alloc, object, RowKind::Layer)?;
    Ok(ListRow::Layer(ShownLayer {
        cores: Cores(cores),
        dead,
        depend,
        eaten,
        limit,
        memory: Kb(memory),
        name,
        range,
        running,
        succeeded,
        waiting,
    }))
}

#[tactic(auto, unfolding(farm_lines::specs::ReplyRows::frame_row_at))]
fn read_frame(alloc: Global, object: &Map) -> Result<ListRow, FieldFault>
    ensures { Gives (λ row. row) result (frame_row_at (members_view object.now.items)) }
{
    let frame = read_text(alloc, object, "frame")?;
    let retries = read_whole(alloc, object, "retries", 0, MOST_RETRIES)?;
    let state = read_word(alloc, object, "state")?;
    let version = read_whole(alloc, object, "version", 0, LAST_VERSION)?;
    no_others(alloc, object, RowKind::Frame)?;
    Ok(ListRow::Frame(ShownFrame {
        frame,
        retries,
        state,
        version: Version(version),
    }))
}

#[tactic(auto, unfolding(farm_lines::specs::ReplyRows::depend_row_at))]
fn read_depend(alloc: Global, object: &Map) -> Result<ListRow, FieldFault>
    ensures { Gives (λ row. row) result (depend_row_at (members_view object.now.items)) }
{
    let depend = read_whole(alloc, object, "depend", 1, LAST_DEPEND)?;
    let kind = read_word(alloc, object, "kind")?;
    let satisfied = cue_json::flag(alloc, object, "satisfied")?;
    no_others(alloc, object, RowKind::Depend)?;
    Ok(ListRow::Depend(ShownDepend {
        depend: DependNo(depend),
        kind,
        satisfied,
    }))
}

#[tactic(auto, unfolding(farm_lines::specs::ReplyRows::proc_row_at))]
fn read_proc(alloc: Global, object: &Map) -> Result<ListRow, FieldFault>
    ensures { Gives (λ row. row) result (proc_row_at (members_view object.now.items)) }
{
    let cores = read_whole(alloc, object, "cores", LEAST_CORES, MOST_CORES)?;
    let frame = read_text(alloc, object, "frame")?;
    let host = read_name(alloc, object, "host")?;
    let job = read_name(alloc, object, "job")?;
    let memory = cue_json::whole(alloc, object, "memory", LEAST_MEMORY, MOST_MEMORY)?;
    let slot = read_whole(alloc, object, "slot", 0, LAST_SLOT)?;
    let version = read_whole(alloc, object, "version", 0, LAST_VERSION)?;
    no_others(alloc, object, RowKind::Proc)?;
    Ok(ListRow::Proc(ShownProc {
        cores: Cores(cores),
        frame,
        host,
        job,
        memory: Kb(memory),
        slot: Slot(slot),
        version: Version(version),
    }))
}
