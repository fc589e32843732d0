//! The layer that an end names.

ghost use Rattle.std.specs.Prelude.{◌≡◌, bytes_eq, find, option_copied};
ghost use Rattle.farm_types.specs.Groups.{layer_named_by, or_no_layer, part_of};

use farm_types::{LayerShape, Place, Shape, Slot, Text};

/// The numbers of the frames in the layer that an end names, in range order, none where it names no layer that is there.
pub(crate) fn layer_numbers<'a>(shape: &'a Shape, place: &Place) -> &'a [i32]
    ensures { result.now ≡ (layer_named_by shape.now (part_of place.now)).numbers }
{
    match layer_named_by(shape, place) {
        None => &[],
        Some(layer) => layer.numbers.as_slice(),
    }
}

/// The slots of the frames in the layer that an end names, in range order, none where it names no layer that is there.
pub(crate) fn layer_slots<'a>(shape: &'a Shape, place: &Place) -> &'a [Slot]
    ensures { result.now ≡ (layer_named_by shape.now (part_of place.now)).slots }
{
    match layer_named_by(shape, place) {
        None => &[],
        Some(layer) => layer.slots.as_slice(),
    }
}

// The layer that an end names.
fn layer_named_by<'a>(shape: &'a Shape, place: &Place) -> Option<&'a LayerShape>
    ensures { or_no_layer (option_copied result) ≡ layer_named_by shape.now (part_of place.now) }
{
    match &place.layer {
        None => None,
        Some(name) => layer_called(shape.layers.as_slice(), name),
    }
}

/// The first layer of that name.
pub(crate) fn layer_called<'a>(layers: &'a [LayerShape], name: &Text) -> Option<&'a LayerShape>
    ensures { option_copied result ≡ find (λ layer. bytes_eq layer.name name.now) layers.now }
{
    layers.iter().find(|layer| layer.name.is(name.as_str()))
}
