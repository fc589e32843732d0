//! Fields that more than one kind of line has.

ghost use Rattle.cue_json.specs.View.{members_view};
ghost use Rattle.cue_json.specs.Fields.{Gives};
ghost use Rattle.farm_lines.specs.Spec.{number_at};

use cue_json::{FieldFault, Map};
use std::alloc::Global;

/// The field's whole number of 64 bits, whose limits are judged later.
pub fn read_number(alloc: Global, object: &Map, field: &str) -> Result<u64, FieldFault>
    ensures { Gives (λ number. number) result (number_at field.now (members_view object.now.items)) }
{
    cue_json::whole(alloc, object, field, 0, u64::MAX)
}
