//! Names of frames.

ghost use Rattle.std.specs.Prelude.{◌≡◌, ◌++◌, IfOk, OnOk, decimal, string_bytes};
ghost use Rattle.farm_types.specs.Names.{four_places, frame_name, padded};

use farm_types::Text;
use std::alloc::{AllocError, Global};

// The most bytes of a name before its layer: ten digits, a sign and the dash.
const MOST_BEFORE_LAYER: usize = 12;

/// A frame's name: its number in four places, a dash, and its layer's name, as `0001-render`. The only error is that memory ran out.
pub fn frame_name(alloc: Global, number: i32, layer: &str) -> Result<Text, AllocError>
    ensures { IfOk result (λ name. name ≡ frame_name number layer.now) }
{
    let mut name = String::with_capacity(alloc, MOST_BEFORE_LAYER + layer.len())?;
    write_frame_name(&mut name, number, layer)?;
    Ok(Text::from_string(name))
}

/// Writes a frame's name.
pub(crate) fn write_frame_name(
    text: &mut String,
    number: i32,
    layer: &str,
) -> Result<(), AllocError>
    ensures { OnOk result (string_bytes text.new ≡ string_bytes text.old ++ frame_name number layer.now) }
{
    write_places(text, number)?;
    text.push('-')?;
    text.push_str(layer)
}

/// Writes a frame's number in four places, a sign counted among them: `0007`, `-007`, `12345`.
pub(crate) fn write_places(text: &mut String, number: i32) -> Result<(), AllocError>
    ensures { OnOk result (string_bytes text.new ≡ string_bytes text.old ++ four_places number) }
{
    if number < 0 {
        text.push('-')?;
        write_padded(text, 3, number.unsigned_abs())
    } else {
        write_padded(text, 4, number.unsigned_abs())
    }
}

// Writes a number in at least so many places, filled up with zeros in front.
fn write_padded(text: &mut String, places: usize, number: u32) -> Result<(), AllocError>
    ensures { OnOk result (string_bytes text.new ≡ string_bytes text.old ++ padded places (decimal number)) }
{
    let mut buffer = itoa::Buffer::new();
    let digits = buffer.format(number);
    for _zero in digits.len()..places {
        text.push('0')?;
    }
    text.push_str(digits)
}
