//! The requests that name a show, an allocation, a host, a job or a depend.

ghost use Rattle.std.specs.Prelude.{◌≡◌, ◌++◌, ◌∷◌, codes, OnOk};
ghost use Rattle.farm_lines.specs.RequestText.{drop_line, job_line, lock_line, name_line, pause_word};
ghost use Rattle.object_writer.specs.Tokens.{added, tokens_of};

use farm_types::{DependNo, LockState};
use object_writer::ObjectWriter;
use state_names::lock_word;
use std::alloc::{AllocError, Global};

/// What is asked of a show or an allocation, by its name.
#[tactic(auto, unfolding(farm_lines::specs::RequestText::name_line))]
pub fn write_name(out: &mut ObjectWriter, word: &str, name: &str) -> Result<(), AllocError>
    ensures { OnOk result (out.new ≡ added out.old (tokens_of (name_line word.now name.now))) }
{
    out.begin_object()?;
    out.text("name", name)?;
    out.text("op", word)?;
    out.end_object()
}

/// That an allocation be added, of that facility and tag.
pub fn write_alloc(
    alloc: Global,
    out: &mut ObjectWriter,
    facility: &str,
    tag: &str,
) -> Result<(), AllocError>
    ensures { OnOk result (out.new ≡ added out.old (tokens_of (name_line (codes "alloc") (facility.now ++ 46 ∷ tag.now)))) }
{
    let name = format!(in alloc; "{facility}.{tag}")?;
    write_name(out, "alloc", name.as_str())
}

/// That a host be locked or opened.
#[tactic(auto, unfolding(farm_lines::specs::RequestText::lock_line))]
pub fn write_lock(out: &mut ObjectWriter, host: &str, lock: LockState) -> Result<(), AllocError>
    ensures { OnOk result (out.new ≡ added out.old (tokens_of (lock_line host.now lock))) }
{
    out.begin_object()?;
    out.text("host", host)?;
    out.text("lock", lock_word(lock))?;
    out.text("op", "host")?;
    out.end_object()
}

/// That a depend be dropped, by its number.
#[tactic(auto, unfolding(farm_lines::specs::RequestText::drop_line))]
pub fn write_drop(out: &mut ObjectWriter, depend: DependNo) -> Result<(), AllocError>
    ensures { OnOk result (out.new ≡ added out.old (tokens_of (drop_line depend))) }
{
    out.begin_object()?;
    out.whole("depend", u64::from(depend.0))?;
    out.text("op", "drop")?;
    out.end_object()
}

/// What is asked of a job, by its name.
#[tactic(auto, unfolding(farm_lines::specs::RequestText::job_line))]
pub fn write_job(out: &mut ObjectWriter, word: &str, job: &str) -> Result<(), AllocError>
    ensures { OnOk result (out.new ≡ added out.old (tokens_of (job_line word.now job.now))) }
{
    out.begin_object()?;
    out.text("job", job)?;
    out.text("op", word)?;
    out.end_object()
}

/// The word that pauses a job, or resumes it.
pub fn pause_word(paused: bool) -> &'static str
    ensures { result.now ≡ pause_word paused }
{
    if paused { "pause" } else { "resume" }
}
