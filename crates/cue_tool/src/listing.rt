//! A list as a table.

ghost use Rattle.std.specs.Prelude.{◌≡◌, IfOk};
ghost use Rattle.cue_tables.specs.Tables.{FitsHead, table_text};
ghost use Rattle.farm_lines.specs.RowKinds.{kind_of_row, kind_of_what, row_keys};
ghost use Rattle.farm_lines.specs.Words.{what_of};
ghost use Rattle.cue_tool.specs.Listings.{have_keys, is_kind, listing_of, table_of};

use crate::cells::cells_of_rows;
use cue_tables::table;
use farm_lines::{ListReply, ListRow, RowKind, What};
use farm_types::{Items, Text};
use std::alloc::{AllocError, Global};

/// The table of the list that a word names. None where it names no list, or a row hasn't the keys of that list.
pub(crate) fn listing(
    alloc: Global,
    word: &str,
    list: &ListReply,
) -> Result<Option<Text>, AllocError>
    ensures { IfOk result (λ listing. listing ≡ listing_of word.now list.now) }
{
    match what_of(word) {
        Some(what) => table_of(alloc, kind_of(what), list.rows.as_slice()),
        None => Ok(None),
    }
}

// The rows as a table, where each has these keys.
fn table_of(alloc: Global, keys: RowKind, rows: &[ListRow]) -> Result<Option<Text>, AllocError>
    ensures { IfOk result (λ made. made ≡ table_of keys rows.now) }
{
    if !have_keys(keys, rows) {
        return Ok(None);
    }
    let cells = cells_of_rows(alloc, rows)?;
    Ok(Some(table_under(alloc, keys, &cells)?))
}

// The cells under the keys.
fn table_under(alloc: Global, keys: RowKind, cells: &Items<Items<Text>>) -> Result<Text, AllocError>
    requires { FitsHead (row_keys keys) cells.now }
    ensures { IfOk result (λ text. text ≡ table_text (row_keys keys) cells.now) }
{
    table(alloc, keys.keys(), cells)
}

// Whether each row has these keys.
fn have_keys(keys: RowKind, rows: &[ListRow]) -> bool
    ensures { result ≡ have_keys keys rows.now }
{
    rows.iter().all(|row| is_kind(keys, kind_of_row(row)))
}

// Whether these are the same keys.
fn is_kind(keys: RowKind, other: RowKind) -> bool
    ensures { result ≡ is_kind keys other }
{
    keys == other
}

// The keys of a row.
fn kind_of_row(row: &ListRow) -> RowKind
    ensures { result ≡ kind_of_row row.now }
{
    match row {
        ListRow::Name { .. } => RowKind::Name,
        ListRow::Sub(_) => RowKind::Sub,
        ListRow::Limit(_) => RowKind::Limit,
        ListRow::Host(_) => RowKind::Host,
        ListRow::Job(_) => RowKind::Job,
        ListRow::Layer(_) => RowKind::Layer,
        ListRow::Frame(_) => RowKind::Frame,
        ListRow::Depend(_) => RowKind::Depend,
        ListRow::Proc(_) => RowKind::Proc,
    }
}

// The keys of the rows of a list.
fn kind_of(what: What) -> RowKind
    ensures { result ≡ kind_of_what what }
{
    match what {
        What::Shows | What::Allocs => RowKind::Name,
        What::Subs => RowKind::Sub,
        What::Limits => RowKind::Limit,
        What::Hosts => RowKind::Host,
        What::Jobs => RowKind::Job,
        What::Layers => RowKind::Layer,
        What::Frames => RowKind::Frame,
        What::Depends => RowKind::Depend,
        What::Procs => RowKind::Proc,
    }
}

// The list that a word names.
fn what_of(word: &str) -> Option<What>
    ensures { result ≡ what_of word.now }
{
    match word {
        "shows" => Some(What::Shows),
        "allocs" => Some(What::Allocs),
        "subs" => Some(What::Subs),
        "limits" => Some(What::Limits),
        "hosts" => Some(What::Hosts),
        "jobs" => Some(What::Jobs),
        "layers" => Some(What::Layers),
        "frames" => Some(What::Frames),
        "depends" => Some(What::Depends),
        "procs" => Some(What::Procs),
        _ => None,
    }
}
