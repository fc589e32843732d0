//! A table in columns.

ghost use Rattle.std.specs.Prelude.{◌≡◌, IfOk, map};
ghost use Rattle.cue_tables.specs.Tables.{FitsHead, table_text};

use crate::lines::push_lines;
use crate::widths::widths_of;
use farm_types::{Items, Text};
use std::alloc::{AllocError, Global};

/// A line for the head and one for each row, each with its newline. A column is as wide as its longest cell, in characters, and two spaces part it
/// from the next; cells stand to the left, and the last one of a line isn't filled up. Each row has as many cells as the head.
pub fn table(alloc: Global, head: &[&str], rows: &Items<Items<Text>>) -> Result<Text, AllocError>
    requires { FitsHead (map (λ cell. cell.now) head.now) rows.now }
    ensures { IfOk result (λ text. text ≡ table_text (map (λ cell. cell.now) head.now) rows.now) }
{
    let names = owned(alloc, head)?;
    lines_of(alloc, names.as_slice(), rows.as_slice())
}

// The head's cells as texts of their own.
fn owned(alloc: Global, head: &[&str]) -> Result<Items<Text>, AllocError>
    ensures { IfOk result (λ cells. cells ≡ map (λ cell. cell.now) head.now) }
{
    let mut cells = Items::new(alloc);
    for cell in head {
        cells.push(Text::from_str(alloc, cell)?)?;
    }
    Ok(cells)
}

// The table of a head that is a line of texts like the rows.
fn lines_of(alloc: Global, head: &[Text], rows: &[Items<Text>]) -> Result<Text, AllocError>
    requires { FitsHead head.now rows.now }
    ensures { IfOk result (λ text. text ≡ table_text head.now rows.now) }
{
    let widths = widths_of(alloc, head, rows)?;
    let mut text = String::new(alloc);
    push_lines(&mut text, widths.as_slice(), head, rows)?;
    Ok(Text::from_string(text))
}
