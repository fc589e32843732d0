//! The farm's refusals.

ghost use Rattle.std.specs.Prelude.{◌≡◌, OnOk};
ghost use Rattle.farm_types.specs.declared.refusal.Refusal.TheVariants.{Unknown, Finished, Exists, WrongBoot, Stale, FarmFull, Satisfied, WrongState, VersionSpent, SelfDepend, Started, Full};
ghost use Rattle.state_names.specs.Words.{counted_word, state_word};
ghost use Rattle.farm_lines.specs.Reply.{refusal_data};
ghost use Rattle.object_writer.specs.Tokens.{added, tokens_of};

use farm_types::{Counted, FrameState, Refusal};
use object_writer::ObjectWriter;
use state_names::{counted_word, state_word};
use std::alloc::AllocError;

/// The refusal with its code and what it shows.
pub fn write_refusal(out: &mut ObjectWriter, why: &Refusal) -> Result<(), AllocError>
    ensures { OnOk result (out.new ≡ added out.old (tokens_of (refusal_data why.now))) }
{
    match why {
        Refusal::Unknown { name } => write_unknown(out, name.as_str()),
        Refusal::Finished { name } => write_finished(out, name.as_str()),
        Refusal::Exists { name } => write_exists(out, name.as_str()),
        Refusal::WrongBoot { boot } => write_wrong_boot(out, *boot),
        Refusal::Stale { last } => write_stale(out, *last),
        Refusal::FarmFull { free } => write_farm_full(out, *free),
        Refusal::Satisfied => write_satisfied(out),
        Refusal::WrongState { state } => write_wrong_state(out, *state),
        Refusal::VersionSpent { frame } => write_version_spent(out, frame.as_str()),
        Refusal::SelfDepend { frame } => write_self_depend(out, frame.as_str()),
        Refusal::Started { frame } => write_started(out, frame.as_str()),
        Refusal::Full { limit, what } => write_full(out, *limit, *what),
    }
}

#[tactic(auto, unfolding(farm_lines::specs::Reply::refusal_data))]
fn write_unknown(out: &mut ObjectWriter, name: &str) -> Result<(), AllocError>
    ensures { OnOk result (out.new ≡ added out.old (tokens_of (refusal_data (Unknown name.now)))) }
{
    out.begin_object()?;
    out.whole("code", 3)?;
    out.text("name", name)?;
    out.truth("ok", false)?;
    out.text("why", "unknown")?;
    out.end_object()
}

#[tactic(auto, unfolding(farm_lines::specs::Reply::refusal_data))]
fn write_finished(out: &mut ObjectWriter, name: &str) -> Result<(), AllocError>
    ensures { OnOk result (out.new ≡ added out.old (tokens_of (refusal_data (Finished name.now)))) }
{
    out.begin_object()?;
    out.whole("code", 10)?;
    out.text("name", name)?;
    out.truth("ok", false)?;
    out.text("why", "finished")?;
    out.end_object()
}

#[tactic(auto, unfolding(farm_lines::specs::Reply::refusal_data))]
fn write_exists(out: &mut ObjectWriter, name: &str) -> Result<(), AllocError>
    ensures { OnOk result (out.new ≡ added out.old (tokens_of (refusal_data (Exists name.now)))) }
{
    out.begin_object()?;
    out.whole("code", 4)?;
    out.text("name", name)?;
    out.truth("ok", false)?;
    out.text("why", "exists")?;
    out.end_object()
}

#[tactic(auto, unfolding(farm_lines::specs::Reply::refusal_data))]
fn write_wrong_boot(out: &mut ObjectWriter, boot: u32) -> Result<(), AllocError>
    ensures { OnOk result (out.new ≡ added out.old (tokens_of (refusal_data (WrongBoot boot)))) }
{
    out.begin_object()?;
    out.whole("boot", u64::from(boot))?;
    out.whole("code", 5)?;
    out.truth("ok", false)?;
    out.text("why", "wrong_boot")?;
    out.end_object()
}

#[tactic(auto, unfolding(farm_lines::specs::Reply::refusal_data))]
fn write_stale(out: &mut ObjectWriter, last: u64) -> Result<(), AllocError>
    ensures { OnOk result (out.new ≡ added out.old (tokens_of (refusal_data (Stale last)))) }
{
    out.begin_object()?;
    out.whole("code", 6)?;
    out.whole("last", last)?;
    out.truth("ok", false)?;
    out.text("why", "stale")?;
    out.end_object()
}

#[tactic(auto, unfolding(farm_lines::specs::Reply::refusal_data))]
fn write_farm_full(out: &mut ObjectWriter, free: u32) -> Result<(), AllocError>
    ensures { OnOk result (out.new ≡ added out.old (tokens_of (refusal_data (FarmFull free)))) }
{
    out.begin_object()?;
    out.whole("code", 9)?;
    out.whole("free", u64::from(free))?;
    out.truth("ok", false)?;
    out.text("why", "farm_full")?;
    out.end_object()
}

#[tactic(auto, unfolding(farm_lines::specs::Reply::refusal_data))]
fn write_satisfied(out: &mut ObjectWriter) -> Result<(), AllocError>
    ensures { OnOk result (out.new ≡ added out.old (tokens_of (refusal_data Satisfied))) }
{
    out.begin_object()?;
    out.whole("code", 11)?;
    out.truth("ok", false)?;
    out.text("state", "SATISFIED")?;
    out.text("why", "wrong_state")?;
    out.end_object()
}

#[tactic(auto, unfolding(farm_lines::specs::Reply::refusal_data))]
fn write_wrong_state(out: &mut ObjectWriter, state: FrameState) -> Result<(), AllocError>
    ensures { OnOk result (out.new ≡ added out.old (tokens_of (refusal_data (WrongState state)))) }
{
    let state = state_word(state);
    out.begin_object()?;
    out.whole("code", 11)?;
    out.truth("ok", false)?;
    out.text("state", state)?;
    out.text("why", "wrong_state")?;
    out.end_object()
}

#[tactic(auto, unfolding(farm_lines::specs::Reply::refusal_data))]
fn write_version_spent(out: &mut ObjectWriter, frame: &str) -> Result<(), AllocError>
    ensures { OnOk result (out.new ≡ added out.old (tokens_of (refusal_data (VersionSpent frame.now)))) }
{
    out.begin_object()?;
    out.whole("code", 14)?;
    out.text("frame", frame)?;
    out.truth("ok", false)?;
    out.text("why", "version_spent")?;
    out.end_object()
}

#[tactic(auto, unfolding(farm_lines::specs::Reply::refusal_data))]
fn write_self_depend(out: &mut ObjectWriter, frame: &str) -> Result<(), AllocError>
    ensures { OnOk result (out.new ≡ added out.old (tokens_of (refusal_data (SelfDepend frame.now)))) }
{
    out.begin_object()?;
    out.whole("code", 12)?;
    out.text("frame", frame)?;
    out.truth("ok", false)?;
    out.text("why", "self_depend")?;
    out.end_object()
}

#[tactic(auto, unfolding(farm_lines::specs::Reply::refusal_data))]
fn write_started(out: &mut ObjectWriter, frame: &str) -> Result<(), AllocError>
    ensures { OnOk result (out.new ≡ added out.old (tokens_of (refusal_data (Started frame.now)))) }
{
    out.begin_object()?;
    out.whole("code", 17)?;
    out.text("frame", frame)?;
    out.truth("ok", false)?;
    out.text("why", "started")?;
    out.end_object()
}

#[tactic(auto, unfolding(farm_lines::specs::Reply::refusal_data))]
fn write_full(out: &mut ObjectWriter, limit: u64, what: Counted) -> Result<(), AllocError>
    ensures { OnOk result (out.new ≡ added out.old (tokens_of (refusal_data (Full limit what)))) }
{
    let what = counted_word(what);
    out.begin_object()?;
    out.whole("code", 18)?;
    out.whole("limit", limit)?;
    out.truth("ok", false)?;
    out.text("what", what)?;
    out.text("why", "full")?;
    out.end_object()
}
