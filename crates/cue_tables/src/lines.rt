//! The lines of a table.

ghost use Rattle.std.specs.Prelude.{◌≡◌, ◌++◌, ◌∷◌, [], length, replicate, OnOk, string_bytes};
ghost use Rattle.cue_tables.specs.Tables.{FitsHead, HasCells, cell_text, line_text, lines_text, padded};

use crate::widths::characters;
use farm_types::{Items, Text};
use std::alloc::AllocError;

/// Adds the line of the head and that of each row.
pub(crate) fn push_lines(
    text: &mut String,
    widths: &[usize],
    head: &[Text],
    rows: &[Items<Text>],
) -> Result<(), AllocError>
    requires fits { FitsHead head.now rows.now }
    requires long { length widths.now ≡ length head.now }
    ensures { OnOk result (string_bytes text.new ≡ string_bytes text.old ++ lines_text widths.now (head.now ∷ rows.now)) }
{
    push_line(text, widths, head)?;
    push_rows(text, widths, rows)
}

// Adds the line of each row.
fn push_rows(text: &mut String, widths: &[usize], rows: &[Items<Text>]) -> Result<(), AllocError>
    requires { HasCells (length widths.now) rows.now }
    ensures { OnOk result (string_bytes text.new ≡ string_bytes text.old ++ lines_text widths.now rows.now) }
{
    for row in rows {
        push_line(text, widths, row.as_slice())?;
    }
    Ok(())
}

// Adds a line and its newline.
fn push_line(text: &mut String, widths: &[usize], line: &[Text]) -> Result<(), AllocError>
    requires { length line.now ≡ length widths.now }
    ensures { OnOk result (string_bytes text.new ≡ string_bytes text.old ++ line_text widths.now line.now ++ 10 ∷ []) }
{
    push_cells(text, widths, line)?;
    text.push_str("\n")
}

// Adds a line's cells.
fn push_cells(text: &mut String, widths: &[usize], line: &[Text]) -> Result<(), AllocError>
    requires { length line.now ≡ length widths.now }
    ensures { OnOk result (string_bytes text.new ≡ string_bytes text.old ++ line_text widths.now line.now) }
{
    for column in 0..line.len() {
        push_cell(
            text,
            widths[column],
            line[column].as_str(),
            column + 1 == line.len(),
        )?;
    }
    Ok(())
}

// Adds a cell, which is filled up unless it is its line's last.
fn push_cell(text: &mut String, width: usize, cell: &str, is_last: bool) -> Result<(), AllocError>
    ensures { OnOk result (string_bytes text.new ≡ string_bytes text.old ++ cell_text is_last width cell.now) }
{
    if is_last {
        text.push_str(cell)
    } else {
        push_padded(text, width, cell)
    }
}

// Adds a cell, filled up, and the two spaces that part it from the next column.
fn push_padded(text: &mut String, width: usize, cell: &str) -> Result<(), AllocError>
    ensures { OnOk result (string_bytes text.new ≡ string_bytes text.old ++ padded width cell.now) }
{
    text.push_str(cell)?;
    push_spaces(text, width.saturating_sub(characters(cell)))?;
    text.push_str("  ")
}

// Adds so many spaces.
fn push_spaces(text: &mut String, count: usize) -> Result<(), AllocError>
    ensures { OnOk result (string_bytes text.new ≡ string_bytes text.old ++ replicate count 32) }
{
    for _space in 0..count {
        text.push_str(" ")?;
    }
    Ok(())
}
