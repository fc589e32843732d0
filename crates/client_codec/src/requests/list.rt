//! The request for a list.

ghost use Rattle.std.specs.Prelude.{◌≡◌, codes, OnOk};
ghost use Rattle.serde_json.specs.Data.{Members};
ghost use Rattle.farm_lines.specs.RequestText.{job_listed, list_line, with_text};
ghost use Rattle.farm_lines.specs.Words.{what_listed, what_word};
ghost use Rattle.object_writer.specs.Tokens.{added, fields_tokens, tokens_of};

use farm_lines::{Listed, Query};
use object_writer::ObjectWriter;
use std::alloc::AllocError;

/// A list, from its place (from 0) on.
pub fn write_query(out: &mut ObjectWriter, query: &Query) -> Result<(), AllocError>
    ensures { OnOk result (out.new ≡ added out.old (tokens_of (list_line query.now))) }
{
    out.begin_object()?;
    out.whole("from", query.from)?;
    write_job_if(out, &query.what)?;
    out.text("op", "list")?;
    out.text("what", list_word(&query.what))?;
    out.end_object()
}

// The job, where the list is one of a job's.
#[tactic(auto, using(crate::proofs::AskedLemmas::RequestTokens::member_rest))]
fn write_job_if(out: &mut ObjectWriter, what: &Listed) -> Result<(), AllocError>
    ensures { OnOk result ((rest : Members) → added out.new (fields_tokens rest)
        ≡ added out.old (fields_tokens (with_text (codes "job") (job_listed what.now) rest))) }
{
    match what {
        Listed::Layers { job } | Listed::Frames { job } | Listed::Depends { job } => {
            out.text("job", job.as_str())
        }
        _ => Ok(()),
    }
}

// The word of what is listed.
fn list_word(what: &Listed) -> &'static str
    ensures { result.now ≡ what_word (what_listed what.now) }
{
    match what {
        Listed::Shows => "shows",
        Listed::Allocs => "allocs",
        Listed::Subs => "subs",
        Listed::Limits => "limits",
        Listed::Hosts => "hosts",
        Listed::Jobs => "jobs",
        Listed::Layers { .. } => "layers",
        Listed::Frames { .. } => "frames",
        Listed::Depends { .. } => "depends",
        Listed::Procs => "procs",
    }
}
