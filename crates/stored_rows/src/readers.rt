//! What the rows of depends are judged by.

ghost use Rattle.std.specs.Prelude.{◌≡◌, bytes_eq, find, length, map, option_copied, option_map, IfOk};
ghost use Rattle.std.specs.List.{position_or_len};
ghost use Rattle.farm_types.specs.Farm.{layers_of, for_any};
ghost use Rattle.farm_rows.specs.Recovery.{end_is_there, is_part_in, shape_so_far, slot_or};
ghost use Rattle.stored_rows.specs.Known.{is_found, layer_known};
ghost use Rattle.stored_rows.specs.SoFar.{shape_with, shapes_with};

use crate::stored_rows::StoredRows;
use farm_types::{DependEnd, Items, JobNo, LayerRow, LayerShape, Shape, Slot, Text};
use row_index::{KnownLayer, row_at};
use std::alloc::{AllocError, Global};

impl StoredRows {
    /// Whether the end's job is pending, and its layer and its frame are there, where they are named.
    pub fn end_is_there(&self, end: &DependEnd) -> bool
        ensures { result ≡ end_is_there self.now.farm end.now }
    {
        self.is_of_pending(end.job) && self.is_part(end)
    }

    // Whether the layer and the frame that the end names are there.
    fn is_part(&self, end: &DependEnd) -> bool
        ensures { result ≡ is_part_in self.now.farm end.now.job end.now.layer end.now.frame }
    {
        let _rows = &self.lists;
        match &end.layer {
            None => true,
            Some(name) => match self.known_named(end.job, name) {
                None => false,
                Some(known) => has_frame(known, end.frame),
            },
        }
    }

    // What is known of the job's layer of that name.
    fn known_named(&self, job: JobNo, name: &Text) -> Option<&KnownLayer>
        ensures { option_copied result
            ≡ option_map (layer_known self.now.farm.slots) (find (λ l. bytes_eq l.name name.now) (layers_of self.now.farm.layers job)) }
    {
        let place = place_named(self.layers_of(job), name);
        row_at(self.known_of(job), place)
    }

    /// The layers of a job with their numbers and slots. A frame that has no slot yet stands at the slot of that number. At an `Err` memory ran out.
    pub fn shape(&self, alloc: Global, job: JobNo, none: u32) -> Result<Shape, AllocError>
        ensures { IfOk result (λ shape. shape ≡ shape_so_far none self.now.farm job) }
    {
        let _rows = &self.lists;
        let layers = shapes_of(alloc, self.layers_of(job), self.known_of(job), none)?;
        Ok(Shape { layers })
    }
}

// The place of the layer of that name, and how many there are where it isn't there.
fn place_named(layers: &[LayerRow], name: &Text) -> usize
    ensures { result ≡ position_or_len (λ l. bytes_eq l.name name.now) layers.now }
{
    for (place, layer) in layers.iter().enumerate() {
        if layer.name.is(name.as_str()) {
            return place;
        }
    }
    layers.len()
}

// Whether the number of a layer has a slot.
fn has_slot(known: &KnownLayer, number: i32) -> bool
    ensures { result ≡ is_found known.now number }
{
    match known.position(number) {
        None => false,
        Some(position) => known.slot(position).is_some(),
    }
}

// Whether the number of a layer has a slot, where one is named.
fn has_frame(known: &KnownLayer, frame: Option<i32>) -> bool
    ensures { result ≡ for_any frame (is_found known.now) }
{
    match frame {
        None => true,
        Some(number) => has_slot(known, number),
    }
}

// Layers with their numbers and slots.
fn shapes_of(
    alloc: Global,
    layers: &[LayerRow],
    known: &[KnownLayer],
    none: u32,
) -> Result<Items<LayerShape>, AllocError>
    requires { length known.now ≡ length layers.now }
    ensures { IfOk result (λ shapes. shapes ≡ shapes_with none layers.now known.now) }
{
    let mut shapes = Items::new(alloc);
    for (place, layer) in layers.iter().enumerate() {
        shapes.push(shape_of(alloc, layer, &known[place], none)?)?;
    }
    Ok(shapes)
}

// A layer with its numbers and slots.
fn shape_of(
    alloc: Global,
    layer: &LayerRow,
    known: &KnownLayer,
    none: u32,
) -> Result<LayerShape, AllocError>
    ensures { IfOk result (λ shape. shape ≡ shape_with none layer.now known.now) }
{
    let name = layer.name.copy(alloc)?;
    let numbers = Items::from_vec(Vec::from_slice(alloc, known.numbers())?);
    let slots = slots_or(alloc, known.slots(), none)?;
    Ok(LayerShape {
        name,
        numbers,
        slots,
    })
}

// The slots of a layer's numbers, and that number for each that has none.
fn slots_or(alloc: Global, slots: &[Option<Slot>], none: u32) -> Result<Items<Slot>, AllocError>
    ensures { IfOk result (λ all. all ≡ map (slot_or none) slots.now) }
{
    let mut all = Items::new(alloc);
    for slot in slots {
        all.push(slot_or(slot, none))?;
    }
    Ok(all)
}

// The slot, or that number where there is none.
fn slot_or(slot: &Option<Slot>, none: u32) -> Slot
    ensures { result ≡ slot_or none slot.now }
{
    match slot {
        None => Slot(none),
        Some(slot) => *slot,
    }
}
