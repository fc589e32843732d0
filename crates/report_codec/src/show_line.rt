//! The line that adds a show.

ghost use Rattle.cue_json.specs.View.{members_view};
ghost use Rattle.cue_json.specs.Fields.{Gives};
ghost use Rattle.farm_lines.specs.declared.request.Request.TheVariants as request;
ghost use Rattle.farm_lines.specs.Request.{asked, show_at};
ghost use Rattle.report_codec.specs.Reads.{IsRequest};

use cue_json::{FieldFault, Map};
use farm_lines::{Request, RequestFault, read_name};
use farm_types::Text;
use std::alloc::Global;

/// The show that the object adds, or its first fault.
pub fn read_show(alloc: Global, object: &Map) -> Result<Request, RequestFault>
    ensures { IsRequest result (asked request.Show (show_at (members_view object.now.items))) }
{
    let name = show(alloc, object)?;
    Ok(Request::Show { name })
}

// The show's name, and no other field.
#[tactic(auto, unfolding(farm_lines::specs::Request::show_at))]
fn show(alloc: Global, object: &Map) -> Result<Text, FieldFault>
    ensures { Gives (λ name. name) result (show_at (members_view object.now.items)) }
{
    let name = read_name(alloc, object, "name")?;
    cue_json::no_others(alloc, object, &["name", "op"])?;
    Ok(name)
}
