//! The fields of frame slots.

ghost use Rattle.std.specs.Prelude.{◌≡◌, true, OnOk};
ghost use Rattle.cue_json.specs.View.{members_view};
ghost use Rattle.cue_json.specs.Fields.{Gives};
ghost use Rattle.row_codec.specs.RowFields.{fields_in_state, frame_fields, free_fields, resting_fields, running_fields};
ghost use Rattle.row_codec.specs.RowReading.{frame_at, resting_of, running_at, state_at, stored_at, stored_if, without_attempt};
ghost use Rattle.object_writer.specs.Tokens.{added, object_tokens};
ghost use Rattle.object_writer.specs.Written.{is_plain};
ghost use Rattle.state_names.specs.Words.{state_word};

use crate::members::write_signed;
use crate::read_fields::{read_i32, read_u16, read_u32, read_u64};
use cue_json::{FieldFault, Map};
use farm_rows::{FrameRow, StoredFrame, StoredState};
use farm_types::{FrameState, HostNo, JobNo, Slot, Version};
use object_writer::ObjectWriter;
use state_names::{Word, named, state_word};
use std::alloc::{AllocError, Global};

/// A slot, as an object.
pub fn write_frame(out: &mut ObjectWriter, row: &FrameRow) -> Result<(), AllocError>
    ensures { OnOk result (out.new ≡ added out.old (object_tokens (frame_fields row.now))) }
{
    match &row.frame {
        None => write_free(out, row.version),
        Some(frame) => write_stored(out, row.version, frame),
    }
}

// A free slot.
#[tactic(auto, unfolding(crate::specs::RowFields::free_fields))]
fn write_free(out: &mut ObjectWriter, version: Version) -> Result<(), AllocError>
    ensures { OnOk result (out.new ≡ added out.old (object_tokens (free_fields version))) }
{
    out.begin_object()?;
    out.word("state", "FREE")?;
    out.version("version", version)?;
    out.end_object()
}

// A slot with a frame.
fn write_stored(
    out: &mut ObjectWriter,
    version: Version,
    frame: &StoredFrame,
) -> Result<(), AllocError>
    ensures { OnOk result (out.new ≡ added out.old (object_tokens (fields_in_state version frame.now frame.now.state))) }
{
    match frame.state {
        StoredState::Running { boot, host, since } => {
            write_running(out, version, frame, boot, host, since)
        }
        _ => write_resting(out, version, frame),
    }
}

// A frame without an attempt.
#[tactic(auto, unfolding(crate::specs::RowFields::resting_fields))]
fn write_resting(
    out: &mut ObjectWriter,
    version: Version,
    frame: &StoredFrame,
) -> Result<(), AllocError>
    ensures { OnOk result (out.new ≡ added out.old (object_tokens (resting_fields version frame.now))) }
{
    out.begin_object()?;
    out.job("job", frame.job)?;
    out.number("layer", frame.layer)?;
    write_signed(out, "number", frame.number)?;
    out.number("retries", frame.retries)?;
    out.word("state", plain_state(frame.state.state()))?;
    out.version("version", version)?;
    out.end_object()
}

// The word of a state. Its bytes stand for themselves.
#[inline(always)]
fn plain_state(state: FrameState) -> &'static str
    ensures word { result.now ≡ state_word state }
    ensures plain { is_plain result.now ≡ true }
{
    state_word(state)
}

// A running frame, with its attempt.
#[tactic(auto, unfolding(crate::specs::RowFields::running_fields))]
fn write_running(
    out: &mut ObjectWriter,
    version: Version,
    frame: &StoredFrame,
    boot: u32,
    host: HostNo,
    since: u64,
) -> Result<(), AllocError>
    ensures { OnOk result (out.new ≡ added out.old (object_tokens (running_fields version frame.now boot host since))) }
{
    out.begin_object()?;
    out.number("boot", boot)?;
    out.host("host", host)?;
    out.job("job", frame.job)?;
    out.number("layer", frame.layer)?;
    write_signed(out, "number", frame.number)?;
    out.number("retries", frame.retries)?;
    out.whole("since", since)?;
    out.word("state", "RUNNING")?;
    out.version("version", version)?;
    out.end_object()
}

/// The slot of that number that the object's fields say.
#[tactic(auto, unfolding(crate::specs::RowReading::frame_at))]
pub fn read_frame(alloc: Global, slot: Slot, object: &Map) -> Result<FrameRow, FieldFault>
    ensures { Gives (λ row. row) result (frame_at slot (members_view object.now.items)) }
{
    let version = read_u32(alloc, object, "version")?;
    let word = cue_json::text(alloc, object, "state")?;
    let frame = read_stored_if(alloc, object, word)?;
    Ok(FrameRow {
        slot,
        version: Version(version),
        frame,
    })
}

// The frame, or none where the slot is free.
#[tactic(auto, unfolding(crate::specs::RowReading::stored_if))]
fn read_stored_if(
    alloc: Global,
    object: &Map,
    word: &str,
) -> Result<Option<StoredFrame>, FieldFault>
    ensures { Gives (λ frame. frame) result (stored_if word.now (members_view object.now.items)) }
{
    if word == "FREE" {
        return Ok(None);
    }
    let frame = read_stored(alloc, object, word)?;
    Ok(Some(frame))
}

#[tactic(auto, unfolding(crate::specs::RowReading::stored_at))]
fn read_stored(alloc: Global, object: &Map, word: &str) -> Result<StoredFrame, FieldFault>
    ensures { Gives (λ frame. frame) result (stored_at word.now (members_view object.now.items)) }
{
    let job = read_u32(alloc, object, "job")?;
    let layer = read_u32(alloc, object, "layer")?;
    let number = read_i32(alloc, object, "number")?;
    let retries = read_u32(alloc, object, "retries")?;
    let state = read_state(alloc, object, word)?;
    Ok(StoredFrame {
        job: JobNo(job),
        layer,
        number,
        retries,
        state,
    })
}

// The state that the word names, with the attempt of a running frame.
fn read_state(alloc: Global, object: &Map, word: &str) -> Result<StoredState, FieldFault>
    ensures { Gives (λ state. state) result (state_at word.now (members_view object.now.items)) }
{
    if word == "RUNNING" {
        read_running(alloc, object)
    } else {
        named(alloc, "state", resting_of(word))
    }
}

#[tactic(auto, unfolding(crate::specs::RowReading::running_at))]
fn read_running(alloc: Global, object: &Map) -> Result<StoredState, FieldFault>
    ensures { Gives (λ state. state) result (running_at (members_view object.now.items)) }
{
    let boot = read_u32(alloc, object, "boot")?;
    let host = read_u16(alloc, object, "host")?;
    let since = read_u64(alloc, object, "since")?;
    Ok(StoredState::Running {
        boot,
        host: HostNo(host),
        since,
    })
}

// ---- words

// The state that the word names, of a frame without an attempt.
fn resting_of(word: &str) -> Option<StoredState>
    ensures { result ≡ resting_of word.now }
{
    match FrameState::of_word(word) {
        None => None,
        Some(state) => without_attempt(state),
    }
}

// The state as it is stored of a frame without an attempt.
fn without_attempt(state: FrameState) -> Option<StoredState>
    ensures { result ≡ without_attempt state }
{
    match state {
        FrameState::Waiting => Some(StoredState::Waiting),
        FrameState::Setup => Some(StoredState::Setup),
        FrameState::Running => None,
        FrameState::Succeeded => Some(StoredState::Succeeded),
        FrameState::Depend => Some(StoredState::Depend),
        FrameState::Dead => Some(StoredState::Dead),
        FrameState::Eaten => Some(StoredState::Eaten),
    }
}
