//! The forms of a depend's row.

ghost use Rattle.std.specs.Prelude.{◌≡◌, ◌&&◌, true, int_le, negsuc, pos};
ghost use Rattle.farm_types.specs.Formed.{is_layer_name};
ghost use Rattle.farm_types.specs.Kept.{is_formed_depend, is_formed_end, is_given, is_number_named};

use farm_types::{DependEnd, DependRow, Text, is_name};
use state_names::{names_frame, names_layer, names_target_frame, names_target_layer};

/// Whether each end has a job's number, and a layer and a frame where the depend's kind names them, each of its form.
pub(crate) fn is_formed(depend: &DependRow) -> bool
    ensures { result ≡ is_formed_depend depend.now }
{
    let kind = depend.kind;
    is_formed_end(&depend.waiter, names_layer(kind), names_frame(kind))
        && is_formed_end(
            &depend.target,
            names_target_layer(kind),
            names_target_frame(kind),
        )
}

// Whether the end has a job's number, and what it is to have.
fn is_formed_end(end: &DependEnd, layered: bool, framed: bool) -> bool
    ensures { result ≡ is_formed_end layered framed end.now }
{
    1 <= end.job.0
        && (is_layer_given(layered, &end.layer)
            && (is_layer_name(&end.layer) && is_frame_given(framed, end.frame)))
}

// There is a layer exactly where the flag says so.
fn is_layer_given(layered: bool, layer: &Option<Text>) -> bool
    ensures { result ≡ is_given layered layer.now }
{
    if layered {
        layer.is_some()
    } else {
        layer.is_none()
    }
}

// There is a frame exactly where the flag says so. Its number may be any of its type.
fn is_frame_given(framed: bool, frame: Option<i32>) -> bool
    ensures { result ≡ (is_given framed frame && is_number_named frame) }
{
    match frame {
        None => !framed,
        Some(number) => {
            fits(number);
            framed
        }
    }
}

// A number of the type is one of 32 bits with a sign. It does nothing.
fn fits(number: i32)
    ensures { (int_le (negsuc 2147483647) number && int_le number (pos 2147483647)) ≡ true }
{}

// A name of a layer, where there is one.
fn is_layer_name(layer: &Option<Text>) -> bool
    ensures { result ≡ is_layer_name layer.now }
{
    match layer {
        None => true,
        Some(name) => is_name(name.as_str()),
    }
}
