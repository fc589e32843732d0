//! The reply to a list: rows, all with the same keys, and how many rows the whole list has.

ghost use Rattle.std.specs.Prelude.{◌≡◌};
ghost use Rattle.cue_json.specs.View.{items_view, members_view};
ghost use Rattle.cue_json.specs.Fields.{Gives};
ghost use Rattle.farm_lines.specs.ReplyLines.{list_reply_at};
ghost use Rattle.farm_lines.specs.ReplyRows.{kind_of_keys, kind_of_rows, rows_at};

use crate::replies::at_most::at_most;
use crate::replies::row::RowReader;
use cue_json::{FieldFault, Map, Value};
use farm_lines::{ListReply, ListRow, ROWS_EACH, Reply, RowKind};
use farm_types::Items;
use std::alloc::Global;

/// The list that the object replies, or its first field at fault.
#[tactic(auto, unfolding(farm_lines::specs::ReplyLines::list_reply_at))]
pub fn read_list(alloc: Global, object: &Map) -> Result<Reply, FieldFault>
    ensures { Gives (λ reply. reply) result (list_reply_at (members_view object.now.items)) }
{
    let rows = read_rows(alloc, object)?;
    let rows = at_most(alloc, ROWS_EACH, "rows", rows)?;
    let total = cue_json::whole(alloc, object, "total", 0, u64::MAX)?;
    cue_json::no_others(alloc, object, &["ok", "rows", "total"])?;
    Ok(Reply::List(ListReply { rows, total }))
}

// The rows, all with the keys of the first.
fn read_rows(alloc: Global, object: &Map) -> Result<Items<ListRow>, FieldFault>
    ensures { Gives (λ rows. rows) result (rows_at (members_view object.now.items)) }
{
    let values = cue_json::list(alloc, object, "rows")?;
    let reader = RowReader {
        keys: first_kind(values.as_slice()),
    };
    let rows = cue_json::read_items(alloc, "rows", values.as_slice(), &reader)?;
    Ok(Items::from_vec(rows))
}

// The keys of the first row, which are those of each.
fn first_kind(values: &[Value]) -> RowKind
    ensures { result ≡ kind_of_rows (items_view values.now) }
{
    let Some(value) = values.first() else {
        return RowKind::Name;
    };
    let Some(object) = cue_json::as_object(value) else {
        return RowKind::Name;
    };
    kind_of_keys(object)
}

// The kind of a row that has a key which no other kind has.
fn kind_of_keys(object: &Map) -> RowKind
    ensures { result ≡ kind_of_keys (members_view object.now.items) }
{
    if cue_json::has(object, "used_cores") {
        RowKind::Host
    } else if cue_json::has(object, "priority") {
        RowKind::Job
    } else if cue_json::has(object, "range") {
        RowKind::Layer
    } else if cue_json::has(object, "booked") {
        RowKind::Sub
    } else if cue_json::has(object, "most") {
        RowKind::Limit
    } else if cue_json::has(object, "retries") {
        RowKind::Frame
    } else if cue_json::has(object, "satisfied") {
        RowKind::Depend
    } else if cue_json::has(object, "slot") {
        RowKind::Proc
    } else {
        RowKind::Name
    }
}
