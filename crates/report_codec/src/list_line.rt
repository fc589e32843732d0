//! The line that asks for a list.

ghost use Rattle.std.specs.Prelude.{codes};
ghost use Rattle.cue_json.specs.View.{members_view};
ghost use Rattle.cue_json.specs.Fields.{Gives, others_at};
ghost use Rattle.farm_lines.specs.declared.request.Request.TheVariants as request;
ghost use Rattle.farm_lines.specs.Fields.{or_default};
ghost use Rattle.farm_lines.specs.ListLines.{by_word, listed_at, query_at, query_keys};
ghost use Rattle.farm_lines.specs.Request.{asked};
ghost use Rattle.farm_lines.specs.Spec.{number_at};
ghost use Rattle.report_codec.specs.Reads.{IsRequest};

use crate::read_fields::read_number;
use cue_json::{FieldFault, Map};
use farm_lines::{Listed, Query, Request, RequestFault, read_name};
use std::alloc::Global;

/// The list that the object asks for, or its first fault.
pub fn read_list(alloc: Global, object: &Map) -> Result<Request, RequestFault>
    ensures { IsRequest result (asked request.List (query_at (members_view object.now.items))) }
{
    let query = query(alloc, object)?;
    Ok(Request::List(query))
}

// The list, and the place from which it is shown.
#[tactic(auto, unfolding(farm_lines::specs::ListLines::query_at))]
fn query(alloc: Global, object: &Map) -> Result<Query, FieldFault>
    ensures { Gives (λ query. query) result (query_at (members_view object.now.items)) }
{
    let what = listed(alloc, object)?;
    let from = first_place(alloc, object)?;
    no_others(alloc, object, &what)?;
    Ok(Query { what, from })
}

// The list, of the job that is named where it is one of a job's.
fn listed(alloc: Global, object: &Map) -> Result<Listed, FieldFault>
    ensures { Gives (λ what. what) result (listed_at (members_view object.now.items)) }
{
    let word = cue_json::text(alloc, object, "what")?;
    listed_by(alloc, object, word)
}

// The list that the word names.
fn listed_by(alloc: Global, object: &Map, word: &str) -> Result<Listed, FieldFault>
    ensures { Gives (λ what. what) result (by_word (members_view object.now.items) word.now) }
{
    match word {
        "shows" => Ok(Listed::Shows),
        "allocs" => Ok(Listed::Allocs),
        "subs" => Ok(Listed::Subs),
        "limits" => Ok(Listed::Limits),
        "hosts" => Ok(Listed::Hosts),
        "jobs" => Ok(Listed::Jobs),
        "layers" => Ok(Listed::Layers {
            job: read_name(alloc, object, "job")?,
        }),
        "frames" => Ok(Listed::Frames {
            job: read_name(alloc, object, "job")?,
        }),
        "depends" => Ok(Listed::Depends {
            job: read_name(alloc, object, "job")?,
        }),
        "procs" => Ok(Listed::Procs),
        _ => Err(FieldFault::wrong_kind(alloc, "what")),
    }
}

// The place from which the list is shown: the first where none is said.
fn first_place(alloc: Global, object: &Map) -> Result<u64, FieldFault>
    ensures { Gives (λ from. from) result (or_default 0 number_at (codes "from") (members_view object.now.items)) }
{
    if cue_json::has(object, "from") {
        read_number(alloc, object, "from")
    } else {
        Ok(0)
    }
}

// No other field stands beside those of the list.
fn no_others(alloc: Global, object: &Map, what: &Listed) -> Result<(), FieldFault>
    ensures { Gives (λ none. none) result (others_at (query_keys what.now) (members_view object.now.items)) }
{
    match what {
        Listed::Layers { .. } | Listed::Frames { .. } | Listed::Depends { .. } => {
            cue_json::no_others(alloc, object, &["from", "job", "op", "what"])
        }
        _ => cue_json::no_others(alloc, object, &["from", "op", "what"]),
    }
}
