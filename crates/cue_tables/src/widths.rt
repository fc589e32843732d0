//! How wide the columns are.

ghost use Rattle.std.specs.Prelude.{◌≡◌, ◌∷◌, IfOk, chars, length, map};
ghost use Rattle.cue_tables.specs.Tables.{FitsHead, wider, width_of, widths_of};

use farm_types::{Items, Text};
use std::alloc::{AllocError, Global};

/// How many characters a cell has.
pub(crate) fn characters(cell: &str) -> usize
    ensures { result ≡ width_of cell.now }
{
    cell.chars().count()
}

/// The width of each column: one for each cell of the head.
pub(crate) fn widths_of(
    alloc: Global,
    head: &[Text],
    rows: &[Items<Text>],
) -> Result<Vec<usize>, AllocError>
    requires { FitsHead head.now rows.now }
    ensures gives { IfOk result (λ widths. widths.items ≡ widths_of (head.now ∷ rows.now)) }
    ensures long { IfOk result (λ widths. length widths.items ≡ length head.now) }
{
    let mut widths = line_widths(alloc, head)?;
    for row in rows {
        widths = widened(alloc, widths.as_slice(), row.as_slice())?;
    }
    Ok(widths)
}

// The widths of a line's cells.
fn line_widths(alloc: Global, line: &[Text]) -> Result<Vec<usize>, AllocError>
    ensures { IfOk result (λ widths. widths.items ≡ map width_of line.now) }
{
    let mut widths = Vec::new(alloc);
    for cell in line {
        widths.push(characters(cell.as_str()))?;
    }
    Ok(widths)
}

// The widths, made greater where a cell of the line is wider.
fn widened(alloc: Global, widths: &[usize], line: &[Text]) -> Result<Vec<usize>, AllocError>
    requires { length line.now ≡ length widths.now }
    ensures { IfOk result (λ made. made.items ≡ wider widths.now (map width_of line.now)) }
{
    let mut made = Vec::new(alloc);
    for column in 0..line.len() {
        made.push(widths[column].max(characters(line[column].as_str())))?;
    }
    Ok(made)
}
